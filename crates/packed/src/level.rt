// A chip's level as a step's number with what the step needs, and back.
ghost use Rattle.std.specs.Prelude.{◌≡◌};
ghost use Rattle.packed.specs.Step.{step, flag, rom_packed, memory_packed, switch_packed, level_packed, rom_unpacked, memory_unpacked, switch_unpacked, level_unpacked};

use crate::Step;
use chip::Level;
use ds2413::SwitchPhase;
use rom::RomStep;
use scratchpad::MemoryPhase;

// A step that is made of its parts.
fn of(number: u8, w: u16, a: u8, b: u8, c: u8) -> Step
    ensures { result ≡ step number w a b c }
{
    Step {
        number: number,
        w: w,
        a: a,
        b: b,
        c: c,
    }
}

// A bit as a number.
pub fn flag_of(b: bool) -> u8
    ensures { result ≡ flag b }
{
    u8::from(b)
}

// Steps 1 to 4.
impl From<RomStep> for Step {
    ghost from_gives = { λ step s. s ≡ rom_packed step };

    fn from(step: RomStep) -> Self {
        match step {
            RomStep::Command { count, bits } => of(1, 0, count, bits, 0),
            RomStep::Read { place } => of(2, 0, place, 0, 0),
            RomStep::Match { place } => of(3, 0, place, 0, 0),
            RomStep::Search { place, slot } => of(4, 0, place, slot, 0),
        }
    }
}

// Steps 16 to 26.
impl From<MemoryPhase> for Step {
    ghost from_gives = { λ phase s. s ≡ memory_packed phase };

    fn from(phase: MemoryPhase) -> Self {
        match phase {
            MemoryPhase::Ones => of(16, 0, 0, 0, 0),
            MemoryPhase::WriteAddress { count, bits } => of(17, bits, count, 0, 0),
            MemoryPhase::WriteData {
                offset,
                count,
                bits,
                crc,
            } => of(18, crc, offset, count, bits),
            MemoryPhase::SendCrc { place, crc } => of(19, crc, place, 0, 0),
            MemoryPhase::ReadRegisters { place } => of(20, 0, place, 0, 0),
            MemoryPhase::ReadPad { offset, count, crc } => of(21, crc, offset, count, 0),
            MemoryPhase::CopyAddress { count, bits } => of(22, bits, count, 0, 0),
            MemoryPhase::CopyEnd {
                address,
                count,
                bits,
            } => of(23, address, count, bits, 0),
            MemoryPhase::Copied { answer } => of(24, 0, flag_of(answer), 0, 0),
            MemoryPhase::ReadAddress { count, bits } => of(25, bits, count, 0, 0),
            MemoryPhase::ReadMemory { address, count } => of(26, address, count, 0, 0),
        }
    }
}

// Steps 32 to 36.
impl From<SwitchPhase> for Step {
    ghost from_gives = { λ phase s. s ≡ switch_packed phase };

    fn from(phase: SwitchPhase) -> Self {
        match phase {
            SwitchPhase::Ones => of(32, 0, 0, 0, 0),
            SwitchPhase::Status { count, sample } => of(33, 0, count, sample, 0),
            SwitchPhase::Take { count, bits } => of(34, bits, count, 0, 0),
            SwitchPhase::Confirm { count } => of(35, 0, count, 0, 0),
            SwitchPhase::Show { count, sample } => of(36, 0, count, sample, 0),
        }
    }
}

// A level as a step.
impl From<Level> for Step {
    ghost from_gives = { λ level s. s ≡ level_packed level };

    fn from(level: Level) -> Self {
        match level {
            Level::Waiting => of(0, 0, 0, 0, 0),
            Level::Rom(step) => Step::from(step),
            Level::FunctionCommand { count, bits } => of(5, 0, count, bits, 0),
            Level::Memory(phase) => Step::from(phase),
            Level::Pio(phase) => Step::from(phase),
        }
    }
}

// What steps 1 to 4 stand for.
#[tactic(auto, using(base::specs::Rules::cases), unfolding(crate::specs::Step::rom_unpacked))]
impl From<Step> for RomStep {
    ghost from_gives = { λ s x. x ≡ rom_unpacked s };

    fn from(s: Step) -> Self {
        match s.number {
            1 => RomStep::Command {
                count: s.a,
                bits: s.b,
            },
            2 => RomStep::Read { place: s.a },
            3 => RomStep::Match { place: s.a },
            _ => RomStep::Search {
                place: s.a,
                slot: s.b,
            },
        }
    }
}

// What steps 16 to 26 stand for; any other is taken for 16.
#[tactic(auto, using(base::specs::Rules::cases), unfolding(crate::specs::Step::memory_unpacked, crate::specs::Step::copy_unpacked))]
impl From<Step> for MemoryPhase {
    ghost from_gives = { λ s x. x ≡ memory_unpacked s };

    fn from(s: Step) -> Self {
        match s.number {
            17 => MemoryPhase::WriteAddress {
                count: s.a,
                bits: s.w,
            },
            18 => MemoryPhase::WriteData {
                offset: s.a,
                count: s.b,
                bits: s.c,
                crc: s.w,
            },
            19 => MemoryPhase::SendCrc {
                place: s.a,
                crc: s.w,
            },
            20 => MemoryPhase::ReadRegisters { place: s.a },
            21 => MemoryPhase::ReadPad {
                offset: s.a,
                count: s.b,
                crc: s.w,
            },
            22 => MemoryPhase::CopyAddress {
                count: s.a,
                bits: s.w,
            },
            23 => MemoryPhase::CopyEnd {
                address: s.w,
                count: s.a,
                bits: s.b,
            },
            24 => MemoryPhase::Copied { answer: s.a == 1 },
            25 => MemoryPhase::ReadAddress {
                count: s.a,
                bits: s.w,
            },
            26 => MemoryPhase::ReadMemory {
                address: s.w,
                count: s.a,
            },
            _ => MemoryPhase::Ones,
        }
    }
}

// What steps 33 to 36 stand for; any other is taken for 32.
#[tactic(auto, using(base::specs::Rules::cases), unfolding(crate::specs::Step::switch_unpacked))]
impl From<Step> for SwitchPhase {
    ghost from_gives = { λ s x. x ≡ switch_unpacked s };

    fn from(s: Step) -> Self {
        match s.number {
            33 => SwitchPhase::Status {
                count: s.a,
                sample: s.b,
            },
            34 => SwitchPhase::Take {
                count: s.a,
                bits: s.w,
            },
            35 => SwitchPhase::Confirm { count: s.a },
            36 => SwitchPhase::Show {
                count: s.a,
                sample: s.b,
            },
            _ => SwitchPhase::Ones,
        }
    }
}

// What a step stands for.
#[tactic(auto, using(base::specs::Rules::cases), unfolding(crate::specs::Step::level_unpacked))]
impl From<Step> for Level {
    ghost from_gives = { λ s x. x ≡ level_unpacked s };

    fn from(s: Step) -> Self {
        match s.number {
            0 => Level::Waiting,
            1..=4 => Level::Rom(RomStep::from(s)),
            5 => Level::FunctionCommand {
                count: s.a,
                bits: s.b,
            },
            6..=31 => Level::Memory(MemoryPhase::from(s)),
            _ => Level::Pio(SwitchPhase::from(s)),
        }
    }
}
