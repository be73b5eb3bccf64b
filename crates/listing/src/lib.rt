// The text of a listing (document 01, "The listing program").
#![tactic(auto)]

mod text; // text.rt: a text that grows
mod pieces; // pieces.rt: the pieces of a text, each appended to it
mod body; // body.rt: the lines

ghost use Rattle.std.specs.Prelude.{◌≡◌, ◌++◌};
ghost use Rattle.listing.specs.Listing.{listing_text};
ghost use Rattle.listing.specs.Texts.{Room, Bodied};
ghost use Rattle.listing.specs.Meets.{WriteMeets};

use job::Refusal;
use text::Text;

// The whole output for an input, written to the front of out; refusal 7 if it doesn't fit.
pub fn write(block: &[u8], out: &mut [u8]) -> Result<usize, Refusal>
    ensures { WriteMeets block.now out.old result out.new }
{
    let mut text = Text::new();
    compose(block, &mut text);
    job::put(text.as_slice(), out)
}

fn compose(block: &[u8], text: &mut Text)
    requires { Room text.old 152000 }
    ensures { text.new ≡ text.old ++ listing_text block.now }
{
    match calls::count(block) {
        Ok(count) => listing(block, count, text),
        Err(refusal) => text.refused(refusal),
    }
}

fn listing(block: &[u8], count: u64, text: &mut Text)
    requires { Bodied block.now count text.old 152000 }
    ensures { text.new ≡ text.old ++ listing_text block.now }
{
    text.header(block, count);
    body::lines(block, count, text);
}
