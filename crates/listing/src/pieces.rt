// The pieces of a text, each appended to it.
ghost use Rattle.std.specs.Prelude.{◌≡◌, ◌+◌, ◌++◌, length};
ghost use Rattle.rules.specs.Blocks.{signed};
ghost use Rattle.job.specs.Replies.{number_of};
ghost use Rattle.listing.specs.Listing.{decimal as Listing·decimal, field as Listing·field, signed_text, header_text, shown, line_text, refused_text};
ghost use Rattle.listing.specs.Texts.{Room, Headed};

use crate::text::Text;
use job::{Job, Refusal};

impl Text {
    fn decimal(&mut self, n: u64)
        requires { Room self.old 20 }
        ensures { self.new ≡ self.old ++ Listing·decimal n }
    {
        let mut digits = [0u8; 20];
        let k = io::decimal(n, &mut digits);
        self.append(&digits[..k]);
    }

    // A word, and the number behind it.
    fn field(&mut self, word: &[u8], n: u64)
        requires { Room self.old (length word.now + 20) }
        ensures { self.new ≡ self.old ++ Listing·field word.now n }
    {
        self.append(word);
        self.decimal(n);
    }

    // A byte in two's complement: 128 and above stand for numbers below 0.
    fn signed_byte(&mut self, x: u8)
        requires { Room self.old 21 }
        ensures { self.new ≡ self.old ++ signed_text (signed x) }
    {
        if x < Job::LEVEL {
            self.decimal(u64::from(x));
        } else {
            self.field(b"-", 256 - u64::from(x));
        }
    }

    pub(crate) fn header(&mut self, block: &[u8], count: u64)
        requires { Headed block.now self.old }
        ensures { self.new ≡ self.old ++ header_text block.now count }
    {
        self.field(b"family ", u64::from(block[0]));
        self.field(b" end ", u64::from(block[1]));
        self.append(b" ");
        self.signed_byte(block[2]);
        self.field(b" count ", count);
        self.append(b"\n");
    }

    pub(crate) fn refused(&mut self, refusal: Refusal)
        requires { Room self.old 200 }
        ensures { self.new ≡ self.old ++ refused_text (number_of refusal) }
    {
        self.field(b"refused ", u64::from(u8::from(refusal)));
        self.append(b"\n");
    }

    fn edge_or_dash(&mut self, edge: &[u8])
        requires { Room self.old (length edge.now + 1) }
        ensures { self.new ≡ self.old ++ shown edge.now }
    {
        if edge.is_empty() {
            self.append(b"-");
        } else {
            self.append(edge);
        }
    }

    pub(crate) fn line(&mut self, number: u64, edge: &[u8])
        requires { Room self.old (length edge.now + 23) }
        ensures { self.new ≡ self.old ++ line_text number edge.now }
    {
        self.decimal(number);
        self.append(b" ");
        self.edge_or_dash(edge);
        self.append(b"\n");
    }
}
