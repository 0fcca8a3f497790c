// Condition handling: the settings of the tasks in lent words: how many tasks have settings, then rows of twelve words, a task's name and a word for
// each of its settings. It knows a task by its name alone.
#![tactic(auto)]

ghost use Rattle.std.specs.Prelude.{◌≡◌};

// "unset, ignore, or a label 1..65535"
#[derive(Clone, Copy, PartialEq, Eq)]
pub enum Setting {
    Unset,
    Ignore,
    Label(u16),
}

// The words of a row.
const ROW: usize = 12;

// The words of a row behind its name: "a setting for conditions 0..10".
const SETTINGS: usize = 11;

// The last condition that has a setting.
const LAST: u8 = 10;

// A setting as a word, and a word as a setting: every word is one, so a label that is read is never 0.
impl From<Setting> for u64 {
    ghost use Rattle.settings.specs.Rows.{setting_word};

    ghost from_gives = { λ s w. w ≡ setting_word s };

    fn from(s: Setting) -> u64 {
        match s {
            Setting::Unset => 0,
            Setting::Ignore => 65536,
            Setting::Label(n) => u64::from(n),
        }
    }
}

impl From<u64> for Setting {
    ghost use Rattle.settings.specs.Rows.{read_setting};

    ghost from_gives = { λ w s. s ≡ read_setting w };

    #[tactic(auto, unfolding(crate::specs::Rows::read_setting))]
    fn from(w: u64) -> Setting {
        match u16::try_from(w) {
            Ok(0) => Setting::Unset,
            Ok(n) => Setting::Label(n),
            Err(_) => Setting::Ignore,
        }
    }
}

pub mod decide;
pub mod forget;
pub mod fresh;
pub mod names;
mod rows;
pub mod set;
pub mod sound;
