// The register file of the DS90UB964-Q1, by value: reset, write, burst and read, and the SCL times.
#![tactic(auto)]

ghost use Rattle.std.specs.Prelude.{◌≡◌, ◌<◌};
ghost use Rattle.laws.specs.Tables.{tabulate};
ghost use Rattle.registers.specs.RegisterMap.{reset_of};
ghost use Rattle.registers.specs.RegisterFiles.{page_reset_at, reset_file, read_port, writes_port, port_read};
ghost use Rattle.registers.specs.RegisterFiles.{page_at, write_shared, write_ports, write_register, read_register};
ghost use Rattle.registers.specs.Bursts.{next_offset, write_burst};

pub mod bits;
pub mod map;
pub mod power_up;
pub mod scl;

// The shared registers, and four pages of 256 registers, one page a port: register o of port p is pages[256 * p + o].
// The entries of `shared` at per-port offsets and those of `pages` at shared ones keep their reset value: nothing reads
// or writes them.
// (Arrays, passed by value: docs/DECISIONS.md, 1.)
#[derive(Clone, Copy)]
pub struct RegisterFile {
    pub shared: [u8; 256],
    pub pages: [u8; 1024],
}

// How the per-port registers are reached: by FPD3_PORT_SEL, which selects the ports to be written and the one to be
// read, or directly on the page of one port.
#[derive(Clone, Copy)]
pub enum PageAccess {
    Selection,
    Port(u8),
}

// The shared register takes the writable bits of `value`.
pub(crate) fn write_shared(file: RegisterFile, offset: u8, value: u8) -> RegisterFile
    ensures { result ≡ write_shared file offset value }
{
    let at = offset as usize;
    let mask = map::write_mask(offset);
    let mut next = file;
    next.shared[at] = bits::masked_write(mask, file.shared[at], value);
    next
}

// Whether a write goes to a port, where FPD3_PORT_SEL holds `selection`.
fn writes_port(access: PageAccess, selection: u8, port: u8) -> bool
    ensures { result ≡ writes_port access selection port }
{
    match access {
        PageAccess::Selection => bits::is_set(selection, port),
        PageAccess::Port(own) => own == port,
    }
}

// The register of each port that the write goes to takes the writable bits of `value`.
fn write_ports(file: RegisterFile, access: PageAccess, offset: u8, value: u8) -> RegisterFile
    ensures { result ≡ write_ports 4 access file offset value }
{
    let selection = file.shared[map::FPD3_PORT_SEL];
    let mask = map::write_mask(offset);
    let mut next = file;
    for port in 0..4u8 {
        if writes_port(access, selection, port) {
            let at = 256 * (port as usize) + offset as usize;
            next.pages[at] = bits::masked_write(mask, next.pages[at], value);
        }
    }
    next
}

// A register write.
pub fn write(file: RegisterFile, access: PageAccess, offset: u8, value: u8) -> RegisterFile
    ensures { result ≡ write_register access file offset value }
{
    if map::is_per_port(offset) {
        return write_ports(file, access, offset, value);
    }
    write_shared(file, offset, value)
}

// The offset after `offset`; after 0xFF comes 0x00.
fn next_offset(offset: u8) -> u8
    ensures { result ≡ next_offset offset }
{
    offset.wrapping_add(1)
}

// A burst writes successive offsets, each byte under the selection then in force: `write_each` goes on with the file
// that the last write returned, which rules out a burst whose every byte goes under the selection at its start.
pub fn burst(file: RegisterFile, access: PageAccess, offset: u8, values: &[u8]) -> RegisterFile
    ensures { result ≡ write_burst access file offset values.now }
{
    let mut next = file;
    let mut at = offset;
    for value in values {
        next = write(next, access, at, *value);
        at = next_offset(at);
    }
    next
}

// The port that FPD3_PORT_SEL names to be read: RX_READ_PORT.
pub fn read_port(file: RegisterFile) -> u8
    ensures { result ≡ read_port file }
{
    file.shared[map::FPD3_PORT_SEL] / 16 % 4
}

// The port whose registers are read.
fn port_read(file: RegisterFile, access: PageAccess) -> u8
    ensures { result ≡ port_read access file }
{
    match access {
        PageAccess::Selection => read_port(file),
        PageAccess::Port(own) => own,
    }
}

// The register of a port; there is none of a port above 3.
fn page_register(file: RegisterFile, port: u8, offset: u8) -> u8
    ensures { result ≡ page_at file.pages port offset }
{
    if 3 < port {
        return 0;
    }
    let at = 256 * (port as usize) + offset as usize;
    file.pages[at]
}

// The register at `offset` as the bus reads it. Reading changes nothing: no file is handed back.
pub fn read(file: RegisterFile, access: PageAccess, offset: u8) -> u8
    ensures { result ≡ read_register access file offset }
{
    if map::is_per_port(offset) {
        return page_register(file, port_read(file, access), offset);
    }
    file.shared[offset as usize]
}

// The reset value of register `index % 256` of port `index / 256`: RAW10_ID and RAW12_ID have the port's number in bits
// 7 and 6.
fn page_reset(resets: &[u8; 256], index: usize) -> u8
    requires { (resets.now ≡ tabulate (reset_of 0) 256) × (index < 1024) }
    ensures { result ≡ page_reset_at index }
{
    let offset = index % 256;
    let value = resets[offset];
    match offset {
        map::RAW10_ID..=map::RAW12_ID => value + 64 * ((index / 256) as u8),
        _ => value,
    }
}

// The four pages after reset.
fn reset_pages() -> [u8; 1024]
    ensures { result ≡ tabulate page_reset_at 1024 }
{
    let resets = map::reset_values::reset_values();
    let mut pages = [0u8; 1024];
    for (index, register) in pages.iter_mut().enumerate() {
        *register = page_reset(&resets, index);
    }
    pages
}

// Every register at its reset value.
pub fn reset() -> RegisterFile
    ensures { result ≡ reset_file }
{
    let shared = map::reset_values::reset_values();
    let pages = reset_pages();
    RegisterFile { shared, pages }
}
