//! Follows a frame through a pile of channels: it is lost once, put again, and arrives.

#![tactic(auto)]

ghost use Rattle.std.specs.Prelude.{◌≡◌, [], ◌∷◌, IfOk, OnOk, string_bytes};
ghost use Rattle.std.specs.Io.KnownBytes.{Appends};
ghost use Rattle.std.specs.Mem.{FitsInMemory};
ghost use Rattle.channel.specs.Rows.{RowLeads};
ghost use Rattle.channels.specs.declared.marks.Mark.TheVariants.{Lose};
ghost use Rattle.channels.specs.Hops.{hops};
ghost use Rattle.channels.specs.Rains.{rains};
ghost use Rattle.channels.specs.Singles.{stores};
ghost use Rattle.channels.specs.Wires.{wires};
ghost use Rattle.showpile.specs.Crossings.{lost_once};
ghost use Rattle.showpile.specs.Prints.{use_lines as lines_of, pile_lines};

use channel::{Poll, Use, Used, make_uses};
use channels::{Hop, Rain, Store, Wire};
use frametext::use_line;
use loads::{Frame, Load, Reading};
use std::alloc::{AllocError, Global};
use std::io;
use std::io::Write;

// Puts a frame into a rain over a hop from a wire to a store. The rain loses the first frame, so it
// is put again.
fn lost_once<T: Load>(pile: &mut Rain<'_, Hop<Wire<T>, Store<T>>>, frame: &Frame<T>) -> [Used<T>; 7]
    requires size { FitsInMemory T.row }
    requires empty { (rains (hops (wires T.Load) stores)).waiting pile.old ≡ [] }
    requires loses_one { pile.old.ahead ≡ Lose ∷ [] }
    ensures row { RowLeads (rains (hops (wires T.Load) stores)) pile.old result pile.new }
    ensures answer { result ≡ lost_once frame.now }
{
    // the last poll answers EMPTY, so an entry that no use wrote would show
    let mut log = [Used::Poll(Poll::Still); 7];
    let put = Use::Put(*frame);
    let uses = [
        put,
        Use::Poll,
        Use::Poll,
        put,
        Use::Poll,
        Use::Poll,
        Use::Poll,
    ];
    make_uses(pile, &uses, &mut log);
    log
}

// A line for each use. Open: whether there is memory for them.
fn use_lines<T: Load>(heap: Global, uses: &[Used<T>]) -> Result<String, AllocError>
    ensures made { IfOk result (λ text. string_bytes text ≡ lines_of T.Load uses.now) }
{
    let mut text = String::new(heap);
    for used in uses {
        text.push_str(&use_line(heap, used)?)?;
        text.push('\n')?;
    }
    Ok(text)
}

// Puts the first frame of a message into the pile, and writes a line for each use. Open: whether it
// ends without an error, and what the output holds after one.
fn show_pile<W: Write>(heap: Global, output: &mut W) -> io::Result<()>
    ensures printed { OnOk result
        (Appends (W.contents output.old) (W.contents output.new) pile_lines) }
{
    let frame = Frame {
        first: true,
        last: false,
        toggle: false,
        load: Reading { value: 7 },
    };
    let marks = [1];
    let mut pile = Rain::new(Hop::new(Wire::new(), Store::new()), &marks).unwrap();
    let lines = use_lines(heap, &lost_once(&mut pile, &frame))?;
    output.write_all(lines.as_bytes())
}

fn main(rt: HostRuntime) -> anyhow::Result<()> {
    Ok(show_pile(rt.alloc(), &mut rt.stdout())?)
}
