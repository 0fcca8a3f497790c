// Why a list is refused.
ghost use Rattle.std.specs.Prelude.{◌≡◌};
ghost use Rattle.frames.specs.Refused.{code_of};

#[derive(Clone, Copy)]
pub enum Refused {
    NotFramed,
    NoRoom,
}

// "35": it is not framed. "Then, 36 exactly if the answer buffer has fewer than 74 bytes per record."
impl From<Refused> for u32 {
    ghost from_gives = { λ r n. n ≡ code_of r };

    fn from(refused: Refused) -> u32 {
        match refused {
            Refused::NotFramed => 35,
            Refused::NoRoom => 36,
        }
    }
}
