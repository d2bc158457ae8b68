// The text that answers a record, put into a lent buffer: a listing of its words and chain sites, `refused` with number and place, or
// `long`.
#![tactic(auto)]

ghost use Rattle.std.specs.Prelude.{◌++◌, length};
ghost use Rattle.text.specs.Put.{decimal};
ghost use Rattle.text.specs.Buffer.{Puts};
ghost use Rattle.listing.specs.Listing.{counts, site_line, site_lines, accepted, refused, long};

use lowering::Site;
use text::Buffer;

// Bytes, and a number behind them.
fn put_field(out: &mut Buffer, name: &[u8], n: u64)
    ensures { Puts (name.now ++ decimal n) out.old out.new }
{
    out.put(name);
    out.put_decimal(n);
}

fn put_counts(out: &mut Buffer, words: usize, body: u32)
    ensures { Puts (counts words body) out.old out.new }
{
    put_field(out, b"words ", words as u64);
    put_field(out, b" body ", body as u64);
    out.put(b"\n");
}

fn put_site(out: &mut Buffer, at: u32, target: u32)
    ensures { Puts (site_line at target) out.old out.new }
{
    put_field(out, b"site ", at as u64);
    out.put(b" ");
    out.put_word(target, b'\n');
}

fn put_sites(out: &mut Buffer, sites: &[Site])
    ensures { Puts (site_lines sites.now) out.old out.new }
{
    for site in sites {
        put_site(out, site.at, site.target);
    }
}

// The words of an accepted record, where its body starts, in bytes, and its chain sites: word positions and guest targets.
pub fn accepted(out: &mut Buffer, words: &[u32], body: u32, sites: &[Site])
    ensures { Puts (accepted words.now body sites.now) out.old out.new }
{
    put_counts(out, words.len(), body);
    out.put_rows(words);
    put_sites(out, sites);
}

// Of any number, not of a `Refusal` alone.
pub fn refused(out: &mut Buffer, number: u32, place: usize)
    ensures { Puts (refused number place) out.old out.new }
{
    put_field(out, b"refused ", number as u64);
    put_field(out, b" ", place as u64);
    out.put(b"\n");
}

// Of a record of more than 4,096 bytes.
pub fn long(out: &mut Buffer)
    ensures { Puts long out.old out.new }
{
    out.put(b"long\n");
}
