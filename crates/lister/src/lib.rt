// The text that the listing program prints for a record file. Each line is written behind those before it.
#![tactic(auto)]

ghost use Rattle.std.specs.Prelude.{◌≡◌, [], ◌∷◌, ◌++◌, ◌+◌, ◌*◌, ◌≤◌, length};
ghost use Rattle.model.specs.Lists.{each};
ghost use Rattle.model.specs.Blocks.{plain_node};
ghost use Rattle.model.specs.Bytes.{decimal};
ghost use Rattle.model.specs.Answers.{refusal_of};
ghost use Rattle.model.specs.Listing.{heading_text, node_line, node_lines, text_of, listing};
ghost use Rattle.text.specs.Adds.{Adds, Grows};
ghost use Rattle.lister.specs.Lines.{refused_as, line_room, text_room, read_limit, Forms, Lists};

use blocks::{NODE, node_at};
use model::{Form, Node, Refusal};
use passive::passify;
use records::load;
use text::Text;

// A number and the byte behind it.
#[tactic(auto, using(text::proofs::Decimals::decimal_short))]
fn number(n: u64, last: u8, out: &mut Text)
    requires { out.old.end + 21 ≤ length out.old.area.now }
    ensures grows { Grows (decimal n ++ (last ∷ [])) out.old out.new }
    ensures upper_bound { out.new.end ≤ out.old.end + 21 }
{
    out.decimal(n);
    out.put(&[last]);
}

// (That a line has room is a clause: `Text` says nothing of how much is to come.)
fn refusal(why: Refusal, out: &mut Text)
    requires { out.old.end + line_room ≤ length out.old.area.now }
    ensures { Grows (text_of (refused_as (refusal_of why))) out.old out.new }
{
    out.put(b"refused ");
    number(refusals::number(why), b' ', out);
    out.put(b"at ");
    number(refusals::place(why), b'\n', out);
}

// The first line: n, V and 3n + 1.
fn heading(nodes: usize, variables: usize, out: &mut Text)
    requires nodes_bound { nodes ≤ 2400 }
    requires line_room_in_bounds { out.old.end + line_room ≤ length out.old.area.now }
    ensures grows { Grows (heading_text nodes variables) out.old out.new }
    ensures upper_bound { out.new.end ≤ out.old.end + line_room }
{
    out.put(b"passive ");
    number(nodes as u64, b' ', out);
    out.put(b"variables ");
    number(variables as u64, b' ', out);
    out.put(b"condition ");
    number(3 * nodes as u64 + 1, b'\n', out);
}

// A node's number, kind, a, b, c.
fn line(i: usize, n: Node, out: &mut Text)
    requires { out.old.end + line_room ≤ length out.old.area.now }
    ensures grows { Grows (node_line i n) out.old out.new }
    ensures upper_bound { out.new.end ≤ out.old.end + line_room }
{
    number(i as u64, b' ', out);
    number(n.kind as u64, b' ', out);
    number(n.a as u64, b' ', out);
    number(n.b as u64, b' ', out);
    number(n.c as u64, b'\n', out);
}

// A line for each of the first nodes. (Their count, and no part of the area: the definition counts them.)
fn lines(nodes: &[u32], count: usize, out: &mut Text)
    requires count_in_bounds { 4 * count ≤ length nodes.now }
    requires lines_room_in_bounds { out.old.end + line_room * count ≤ length out.old.area.now }
    ensures { Grows (node_lines 0 (each (plain_node nodes.now) count)) out.old out.new }
{
    for i in 0..count {
        line(i, node_at(nodes, NODE * i), out);
    }
}

// The passive form of a file, in an area that has room for every form that is listed.
fn passive_form(file: &[u8], nodes: &mut [u32; 9600]) -> Result<Form, Refusal>
    ensures { Forms file.now result nodes.new }
{
    let mut pipeline = [0u32; 10000];
    let mut rules = [0u32; 10000];
    let mut widths = [0u32; 2432];
    let blocks = load(file, &mut pipeline, &mut rules)?;
    passify(
        &pipeline[..blocks.pipeline],
        &rules[..blocks.rules],
        &mut nodes[..],
        &mut widths,
    )
}

// The text of a passive form; where there is none, nothing is written.
fn form(file: &[u8], out: &mut Text) -> Result<(), Refusal>
    requires { out.old.end + text_room ≤ length out.old.area.now }
    ensures { Lists file.now out.old result out.new }
{
    let mut nodes = [0u32; 9600];
    let form = passive_form(file, &mut nodes)?;
    heading(form.nodes, form.variables, out);
    lines(&nodes, form.nodes, out);
    Ok(())
}

// The whole text, at the start of an area that has room for every text; the answer is its length.
pub fn listing(file: &[u8], out: &mut [u8; 252105]) -> usize
    ensures { Adds (listing file.now) 0 out.old result out.new }
{
    let mut written = Text::new(&mut out[..]);
    if let Err(why) = form(file, &mut written) {
        refusal(why, &mut written);
    }
    written.end
}

// Room for the bytes of a file that decide its text, and for the text. (Two functions, since a clause says what each size is.)
pub fn file_area() -> [u8; 40050]
    ensures { length result ≡ read_limit }
{
    [0; 40050]
}

pub fn text_area() -> [u8; 252105]
    ensures { length result ≡ text_room }
{
    [0; 252105]
}
