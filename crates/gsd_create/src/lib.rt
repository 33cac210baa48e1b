// Creates a fresh image at the front of a lent slice: header, an empty index block, an empty name block.
#![tactic(auto)]

ghost use Rattle.std.specs.Prelude.{◌≡◌, IfOk};
ghost use Rattle.gsd_format.specs.Answers.{refused};
ghost use Rattle.gsd_format.specs.Create.{or_default, bad_text, create_test, create_number, created};
ghost use Rattle.gsd_create.specs.Asked.{Asked};

use gsd_bytes::{GREATEST_LENGTH, has_zero};
use gsd_format::Refusal;
use gsd_fresh::Request;

const DEFAULT_SLOTS: u64 = 512;

const DEFAULT_SEGMENTS: u64 = 16;

// Slots, and segments.
const MOST_UNITS: u64 = 65536;

// Bytes of a text.
const LONGEST_TEXT: usize = 63;

// 0 stands for the usual count, as in the C interface: create_number and created say so.
fn or_default(n: u64, usual: u64) -> u64
    ensures { result ≡ or_default n usual }
{
    match n {
        0 => usual,
        _ => n,
    }
}

fn bad_text(t: &[u8]) -> bool
    ensures { result ≡ bad_text t.now }
{
    LONGEST_TEXT < t.len() || has_zero(t, 0, t.len())
}

// The request, where a slice of len bytes takes it.
fn request_of<'a>(
    len: usize,
    application: &'a [u8],
    schema: &'a [u8],
    schema_version: u32,
    slots: u64,
    segments: u64,
) -> Result<Request<'a>, Refusal>
    ensures number { refused result ≡ create_test len application.now schema.now slots segments }
    ensures request { IfOk result (Asked application.now schema.now schema_version slots segments) }
{
    if GREATEST_LENGTH < len {
        return Err(Refusal::LongImage);
    }
    if MOST_UNITS < slots || MOST_UNITS < segments {
        return Err(Refusal::LargeBlock);
    }
    if bad_text(application) || bad_text(schema) {
        return Err(Refusal::BadText);
    }
    let request = Request {
        application,
        schema,
        schema_version,
        slots,
        segments,
    };
    if (len as u64) < request.namelist_end() {
        return Err(Refusal::ShortForBlocks);
    }
    Ok(request)
}

// A refusal changes no byte. Bytes between the two blocks and behind them stay.
pub fn create(
    image: &mut [u8],
    application: &[u8],
    schema: &[u8],
    schema_version: u32,
    slots: u64,
    segments: u64,
) -> Result<(), Refusal>
    ensures number { refused result ≡ create_number image.old application.now schema.now slots segments }
    ensures image { image.new
        ≡ created image.old application.now schema.now schema_version slots segments }
{
    let m = or_default(slots, DEFAULT_SLOTS);
    let k = or_default(segments, DEFAULT_SEGMENTS);
    let request = request_of(image.len(), application, schema, schema_version, m, k)?;
    request.lay_out(image);
    Ok(())
}
