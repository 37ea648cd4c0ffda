// What a register write is to a script of setup blocks.
ghost use Rattle.std.specs.Prelude.{◌≡◌};
ghost use Rattle.ordering.specs.Kinds.{kind_of};

use registers::map;

#[derive(Clone, Copy)]
pub enum WriteKind {
    // No bit of the register is writable: the model does not follow the write.
    NotFollowed,
    // It goes to FPD3_PORT_SEL: a block starts.
    Selection,
    // It goes to a per-port register.
    PortRegister,
    // It goes to a shared register other than FPD3_PORT_SEL.
    SharedRegister,
}

pub fn kind_of(offset: u8) -> WriteKind
    ensures { result ≡ kind_of offset }
{
    if map::write_mask(offset) == 0 {
        return WriteKind::NotFollowed;
    }
    if offset as usize == map::FPD3_PORT_SEL {
        return WriteKind::Selection;
    }
    if map::is_per_port(offset) {
        return WriteKind::PortRegister;
    }
    WriteKind::SharedRegister
}
