// The rows of the table: what a frame at rest is, kind by kind. A frame that a row does not take is ignored.
ghost use Rattle.std.specs.Prelude.{◌≡◌, ◌+◌, ◌*◌, ◌/◌, ◌%◌, ◌<◌, ◌≤◌, eqb, length};
ghost use Rattle.common.specs.Limits.{longest_frame};
ghost use Rattle.state.specs.State.{data_of};
ghost use Rattle.command.specs.Command.{when, long, address, writable, erase, erase_chip, program_byte, program_page, write_status};

use crate::Command;
use state::State;

// The address of bytes 1 to 3, high byte first, modulo the size.
fn address_of(s: State, input: &[u8]) -> u32
    ensures { (result ≡ address s input.now) × (result < 1048576) }
{
    let size = chip::chip_of(s.chip).size;
    u32::from_be_bytes([
        0,
        common::byte_at(input, 1),
        common::byte_at(input, 2),
        common::byte_at(input, 3),
    ]) % size
}

// WEL is 1, and a target that ends there is not protected.
#[tactic(auto, unfolding(crate::specs::Command::writable))]
fn is_writable(s: State, end: u32) -> bool
    ensures { result ≡ writable s end }
{
    s.wel && end <= state::protection::first_protected(s)
}

// An opcode that stands alone.
pub fn alone(input: &[u8], c: Command) -> Command
    ensures { result ≡ when (long input.now 1) c }
{
    if input.len() == 1 {
        c
    } else {
        Command::Ignored
    }
}

pub fn read_array(s: State, input: &[u8], at: u8) -> Command
    ensures { result ≡ Command.ReadArray (address s input.now) at }
{
    Command::ReadArray {
        from: address_of(s, input),
        at,
    }
}

pub fn read_identity(s: State, input: &[u8]) -> Command
    ensures { result ≡ Command.ReadIdentity (eqb (address s input.now % 2) 1) }
{
    Command::ReadIdentity(address_of(s, input) % 2 == 1)
}

pub fn write_status(s: State, wp: bool, input: &[u8]) -> Command
    ensures { result ≡ write_status s wp input.now }
{
    if input.len() == 2 && s.armed && (!s.bpl || wp) {
        Command::WriteStatus {
            byte: common::byte_at(input, 1),
            time: chip::chip_of(s.chip).status_time,
        }
    } else {
        Command::Ignored
    }
}

// Erase `count` bytes from `start`.
fn erase_of(s: State, start: u32, count: u32, time: u32) -> Command
    requires { start + count < 4294967296 }
    ensures { result ≡ erase s start count time }
{
    if is_writable(s, start + count) {
        Command::Erase { start, count, time }
    } else {
        Command::Ignored
    }
}

// Erase the sector or block that holds the address.
pub fn erase_unit(s: State, input: &[u8], unit: u32, time: u32) -> Command
    requires { (0 < unit) × (unit ≤ 65536) }
    ensures { result ≡ when (long input.now 4) (erase s (address s input.now / unit * unit) unit time) }
{
    if input.len() == 4 {
        erase_of(s, address_of(s, input) / unit * unit, unit, time)
    } else {
        Command::Ignored
    }
}

pub fn erase_chip(s: State, input: &[u8]) -> Command
    ensures { result ≡ erase_chip s input.now }
{
    let chip = chip::chip_of(s.chip);
    if input.len() == 1 {
        erase_of(s, 0, chip.size, chip.chip_time)
    } else {
        Command::Ignored
    }
}

pub fn program_byte(s: State, input: &[u8]) -> Command
    ensures { result ≡ program_byte s input.now }
{
    let address = address_of(s, input);
    if input.len() == 5 && is_writable(s, address + 1) {
        Command::ProgramByte { address }
    } else {
        Command::Ignored
    }
}

pub fn program_page(s: State, input: &[u8]) -> Command
    requires { length input.now ≤ longest_frame }
    ensures { result ≡ program_page s input.now }
{
    let address = address_of(s, input);
    if 5 <= input.len() && is_writable(s, address + 1) {
        Command::ProgramPage {
            address,
            count: (input.len() - 4) as u32,
        }
    } else {
        Command::Ignored
    }
}

// The two bytes of the frame from byte `from` on, to an even address.
fn word_at(s: State, address: u32, from: u8) -> Command
    requires { address < 2097152 }
    ensures { result ≡ when (writable s (address + 2)) (Command.ProgramWord address from) }
{
    if is_writable(s, address + 2) {
        Command::ProgramWord { address, from }
    } else {
        Command::Ignored
    }
}

// The first word: the chip drops the lowest bit of its address.
pub fn first_word(s: State, input: &[u8]) -> Command
    ensures { result ≡ when (long input.now 6) (when (writable s (address s input.now / 2 * 2 + 2)) (Command.ProgramWord (address s input.now / 2 * 2) 4)) }
{
    if input.len() == 6 {
        word_at(s, address_of(s, input) / 2 * 2, 4)
    } else {
        Command::Ignored
    }
}

// A further word, at the next address.
pub fn next_word(s: State, input: &[u8]) -> Command
    requires { s.next < 2097152 }
    ensures { result ≡ when (long input.now 3) (when (writable s (s.next + 2)) (Command.ProgramWord s.next 1)) }
{
    if input.len() == 3 {
        word_at(s, s.next, 1)
    } else {
        Command::Ignored
    }
}
