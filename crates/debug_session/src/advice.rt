//! What a person is told of the monitor commands.
ghost use Rattle.std.specs.Prelude.{◌≡◌};
ghost use Rattle.debug_session.specs.Advice.{advice_words};

use crate::commands::Advice;

/// The list that `monitor help` prints.
pub static COMMANDS: &[u8] = b"\
monitor site            the flip, its weight and outcome, and this place\n\
monitor first           goes to where the two runs first differ in the pc or the output\n\
monitor diff            lists the registers and bytes in which the two runs differ here\n\
monitor output          what the two runs have sent\n\
monitor last-write xK   the instruction that wrote register xK last, in both runs\n\
monitor goto N          goes to the state after N instructions\n\
monitor golden          shows the run without the flip\n\
monitor injected        shows the run with the flip\n\
monitor help            this list\n";

/// Returns what a person is told.
pub(crate) fn advice_text(advice: Advice) -> &'static [u8]
    ensures { result.now ≡ advice_words advice }
{
    match advice {
        Advice::Commands => COMMANDS,
        Advice::NoCommand => b"there is no such command: monitor help lists them\n",
        Advice::NoNumber => {
            b"monitor goto takes a number of instructions, such as monitor goto 20\n"
        }
        Advice::NoRegister => {
            b"monitor last-write takes a register, x0 to x31, such as monitor last-write x11\n"
        }
    }
}
