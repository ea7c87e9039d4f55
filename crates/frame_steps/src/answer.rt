//! What answers do to registers.

ghost use Rattle.std.specs.Prelude.{◌≡◌};
ghost use Rattle.model_programs.specs.Values.{with_ok};
ghost use Rattle.model_programs.specs.Answers.{after_read, after_get, after_write, after_update};
ghost use Rattle.frame_steps.specs.Answers.{IsTaken};
ghost use Rattle.frame_steps.specs.Requests.{answered};

use model_histories::Answer;
use program_text::{REGISTERS, Register, Statement};

/// Does to the registers what an answer to a statement does, and says whether the answer belongs to it. They stay where it does not, or
/// where the statement is a call.
pub fn apply_answer(registers: &mut [u64; REGISTERS], statement: Statement, answer: &Answer) -> bool
    ensures { IsTaken (answered statement answer.now registers.old) result registers.old registers.new }
{
    match statement {
        Statement::Read { register, .. } => apply_read(registers, register, answer),
        Statement::Write { .. } => apply_write(registers, answer),
        Statement::Bump { .. } => apply_write(registers, answer),
        Statement::Update { .. } => apply_update(registers, answer),
        Statement::Put { .. } => apply_write(registers, answer),
        Statement::Get { register, .. } => apply_get(registers, register, answer),
        Statement::Spawn { .. } => matches!(answer, Answer::Split(_)),
        Statement::Sync { .. } => {
            matches!(answer, Answer::Same | Answer::Joined(_) | Answer::Waits)
        }
        _ => false,
    }
}

/// Sets `ok` to 1.
fn set_granted(registers: &mut [u64; REGISTERS])
    ensures { registers.new ≡ with_ok 1 registers.old }
{
    registers[0] = 1;
}

/// Sets `ok` to 0.
fn set_refused(registers: &mut [u64; REGISTERS])
    ensures { registers.new ≡ with_ok 0 registers.old }
{
    registers[0] = 0;
}

/// An answer to a read.
fn apply_read(registers: &mut [u64; REGISTERS], register: Register, answer: &Answer) -> bool
    ensures { IsTaken (after_read register answer.now registers.old) result registers.old registers.new }
{
    match answer {
        Answer::Value(value) => {
            set_granted(registers);
            registers[usize::from(register.index)] = *value;
            true
        }
        Answer::Refused { .. } => {
            set_refused(registers);
            true
        }
        _ => false,
    }
}

/// An answer to a get.
fn apply_get(registers: &mut [u64; REGISTERS], register: Register, answer: &Answer) -> bool
    ensures { IsTaken (after_get register answer.now registers.old) result registers.old registers.new }
{
    match answer {
        Answer::Unset => {
            set_refused(registers);
            true
        }
        _ => apply_read(registers, register, answer),
    }
}

/// An answer to a write, a bump or a put.
fn apply_write(registers: &mut [u64; REGISTERS], answer: &Answer) -> bool
    ensures { IsTaken (after_write answer.now registers.old) result registers.old registers.new }
{
    match answer {
        Answer::Granted => {
            set_granted(registers);
            true
        }
        Answer::Refused { .. } => {
            set_refused(registers);
            true
        }
        _ => false,
    }
}

/// An answer to an update, which is never refused.
fn apply_update(registers: &mut [u64; REGISTERS], answer: &Answer) -> bool
    ensures { IsTaken (after_update answer.now registers.old) result registers.old registers.new }
{
    match answer {
        Answer::Granted => {
            set_granted(registers);
            true
        }
        _ => false,
    }
}
