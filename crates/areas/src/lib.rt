// Writing into an area that is lent: the words go to its start, and the words past them stay.
#![tactic(auto)]

ghost use Rattle.std.specs.Prelude.{◌≡◌, ◌≤◌, length};
ghost use Rattle.model.specs.Calls.{over};

// (A loop, and no `copy_from_slice`: that would call C's `memmove`, which the archive asks of nobody.)
pub fn put(ws: &[u32], area: &mut [u32])
    requires { length ws.now ≤ length area.old }
    ensures { area.new ≡ over ws.now area.old }
{
    for i in 0..ws.len() {
        area[i] = ws[i];
    }
}
