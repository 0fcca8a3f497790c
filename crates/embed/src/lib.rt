// The list entry for other languages: a list in, its answers into a lent buffer. The code is returned, and the number of bytes written goes
// through a third reference. It promises what the run promises, and requires nothing.
#![tactic(auto)]

ghost use Rattle.std.specs.Prelude.{◌≡◌};
ghost use Rattle.model.specs.Lists.{run};
ghost use Rattle.model.specs.Limits.{cabinet};
ghost use Rattle.lists.specs.Run.{reply};

// "The list entry returns 0, 35 or 36 and the number of bytes written, which is 0 on refusal." `include/aldwomp.h` declares it for C.
#[unsafe(no_mangle)]
pub extern "C" fn aldwomp_run(list: &[u8], out: &mut [u8], written: &mut usize) -> u32
    ensures model { reply result written.new out.new ≡ run cabinet list.now out.old }
{
    match lists::run::run(list, out) {
        Ok(n) => {
            *written = n;
            0
        }
        Err(refused) => {
            *written = 0;
            u32::from(refused)
        }
    }
}
