// The listing program: reads a record file on standard input and prints its passive form, or why there is none, on standard output.
// Of a longer file the first bytes decide the text. Nothing is printed of a file that couldn't be read whole.
#![tactic(auto)]

ghost use Rattle.std.specs.Prelude.{◌≤◌, length, IfOk};

use std::io;
use std::io::Write;

// Fills the area from its start, until it is full or the input has ended, and says how many bytes came. The library has no such call:
// `read_exact` fails where the input ends early, and `read_to_end` needs a heap.
fn read_full<R: io::Read>(input: &mut R, area: &mut [u8]) -> io::Result<usize>
    ensures { IfOk result (λ count. count ≤ length area.new) }
{
    let mut count = 0;
    while count < area.len() {
        let more = input.read(&mut area[count..])?;
        if more == 0 {
            break;
        }
        count += more;
    }
    Ok(count)
}

fn main(rt: HostRuntime) -> io::Result<()> {
    let mut file = lister::file_area();
    let count = read_full(&mut rt.reader(), &mut file)?;
    let mut text = lister::text_area();
    let end = lister::listing(&file[..count], &mut text);
    io::writer(&rt).write_all(&text[..end])
}
