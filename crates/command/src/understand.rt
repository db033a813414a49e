// What a frame is at a state and a level of WP: the opcode's number decides.
ghost use Rattle.std.specs.Prelude.{◌≡◌, [], ◌∷◌, ◌<◌, ◌≤◌, length};
ghost use Rattle.common.specs.Limits.{longest_frame};
ghost use Rattle.command.specs.Command.{look, by_kind, in_aai, command_of};

use crate::{Command, rows};
use chip::kinds::Kind;
use state::State;

// At rest: neither busy nor in AAI nor in power-down.
#[tactic(auto, unfolding(crate::specs::Command::by_kind))]
fn by_kind(s: State, wp: bool, kind: Kind, input: &[u8]) -> Command
    requires { length input.now ≤ longest_frame }
    ensures { result ≡ by_kind s wp input.now kind }
{
    match kind {
        Kind::Unknown => Command::Ignored,
        Kind::Read => rows::read_array(s, input, 4),
        Kind::FastRead => rows::read_array(s, input, 5),
        Kind::SectorErase => rows::erase_unit(s, input, 4096, 90000),
        Kind::BlockErase => rows::erase_unit(s, input, 65536, chip::chip_of(s.chip).block_time),
        Kind::ChipErase => rows::erase_chip(s, input),
        Kind::ByteProgram => rows::program_byte(s, input),
        Kind::PageProgram => rows::program_page(s, input),
        Kind::AaiProgram => rows::first_word(s, input),
        Kind::Rdsr => Command::ReadStatus,
        Kind::Ewsr => rows::alone(input, Command::Arm),
        Kind::Wrsr => rows::write_status(s, wp, input),
        Kind::Wren => rows::alone(input, Command::WriteEnable),
        Kind::Wrdi => rows::alone(input, Command::WriteDisable),
        Kind::DeepPowerDown => rows::alone(input, Command::Sleep),
        Kind::Res => Command::ReadSignature,
        Kind::JedecId => Command::ReadJedec,
        Kind::Rdid => rows::read_identity(s, input),
    }
}

// In AAI only AD, 05, 04.
#[tactic(auto, unfolding(crate::specs::Command::in_aai))]
fn in_aai(s: State, op: u8, input: &[u8]) -> Command
    requires { s.next < 2097152 }
    ensures { result ≡ in_aai s input.now op }
{
    match op {
        0xad => rows::next_word(s, input),
        0x05 => Command::ReadStatus,
        0x04 => rows::alone(input, Command::WriteDisable),
        _ => Command::Ignored,
    }
}

// The frame understood: while busy only 05 is taken, in power-down only AB.
// No type holds the bound on the next address or on the frame's length: each is handed down from here to the one row that needs it, and a type would be
// made here and taken apart there.
#[tactic(auto, unfolding(crate::specs::Command::command_of))]
pub fn command_of(s: State, wp: bool, input: &[u8]) -> Command
    requires { (s.next < 2097152) × (length input.now ≤ longest_frame) }
    ensures { result ≡ command_of s wp input.now }
{
    let op = common::byte_at(input, 0);
    if 0 < s.left {
        return match op {
            0x05 => Command::ReadStatus,
            _ => Command::Ignored,
        };
    }
    if s.aai {
        return in_aai(s, op, input);
    }
    if s.power_down {
        return match op {
            0xab => Command::ReadSignature,
            _ => Command::Ignored,
        };
    }
    by_kind(s, wp, chip::kind_of(s.chip, op), input)
}
