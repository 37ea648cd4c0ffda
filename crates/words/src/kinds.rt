// The kinds of findings, by name.
use std::fmt;

#[derive(Clone, Copy, PartialEq, Eq)]
pub enum Kind {
    Replaced,
    SameChannel,
    SameAddress,
    NoPort,
    NotSetUp,
    PortTwice,
    SharedInBlock,
    NotFollowed,
    BitsIgnored,
    NoChange,
    OddAlias,
    NoAddress,
}

impl fmt::Display for Kind {
    fn fmt<W: fmt::Write>(&self, f: &mut fmt::Formatter<W>) -> fmt::Result {
        let name = match self {
            Kind::Replaced => "replaced",
            Kind::SameChannel => "same-channel",
            Kind::SameAddress => "same-address",
            Kind::NoPort => "no-port",
            Kind::NotSetUp => "not-set-up",
            Kind::PortTwice => "port-twice",
            Kind::SharedInBlock => "shared-in-block",
            Kind::NotFollowed => "not-followed",
            Kind::BitsIgnored => "bits-ignored",
            Kind::NoChange => "no-change",
            Kind::OddAlias => "odd-alias",
            Kind::NoAddress => "no-address",
        };
        f.write_str(name)
    }
}
