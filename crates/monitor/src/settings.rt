// Commands 15 to 17: the record is read, and a setting of the issuer is made.
ghost use Rattle.std.specs.Prelude.{◌≡◌};
ghost use Rattle.model.specs.Commands.{issuer, operand};
ghost use Rattle.handlers.specs.Set.{handle_in, ignore_in, reset_in};
ghost use Rattle.monitor.specs.Settings.{sets, setting_turn};

use crate::answers::{Said, plain};
use handlers::Tasks;
use handlers::answers::{Handled, Invalid};

// The settings after the command, and what it says. Specs name the fields.
#[derive(Clone, Copy)]
pub struct Made {
    pub tasks: Tasks,
    pub said: Said,
}

impl From<Handled> for Made {
    ghost use Rattle.monitor.specs.Settings.{sets, sets_by};

    ghost from_gives = { λ h m. m ≡ sets (sets_by h) };

    fn from(h: Handled) -> Made {
        let condition = match h.outcome {
            Ok(()) => 0,
            Err(Invalid) => 10,
        };
        Made {
            tasks: h.tasks,
            said: plain(condition, 0),
        }
    }
}

// 15 handle: condition 1, label 2; 16 ignore: condition 1; 17 reset: condition 1. Another is not asked here, and the last stands for it.
pub fn ask(t: Tasks, command: u8, rec: &[u8]) -> Made
    ensures exact { result ≡ sets (setting_turn t command rec.now) }
{
    let task = records::issuer(rec);
    let condition = records::number1_at(rec, 9);
    Made::from(match command {
        15 => handlers::set::handle(t, task, condition, records::number2_at(rec, 10)),
        16 => handlers::set::ignore(t, task, condition),
        _ => handlers::set::reset(t, task, condition),
    })
}
