// The static library for C, libdialmoth.a: each call of include/dialmoth.h as the function of that name in dialmoth, under the
// same clauses. A slice is a pointer and its length, an array of fixed length a pointer.
#![tactic(auto)]

ghost use Rattle.std.specs.Prelude.{◌≡◌, [], ◌∷◌, length};
ghost use Rattle.gsd_format.specs.Opening.{opening};
ghost use Rattle.gsd_format.specs.Lookup.{nth_entry, nth_name, lookup, chunk_place};
ghost use Rattle.gsd_format.specs.Elements.{element};
ghost use Rattle.gsd_format.specs.Readers.{reading, name_by, entry_by, lookup_by, chunk_place_by, element_by, id_by, find_by, newest_by};
ghost use Rattle.gsd_format.specs.Create.{create_number, created};
ghost use Rattle.gsd_format.specs.Answers.{number_of};
ghost use Rattle.gsd_nchilada.specs.Request.{nchilada_number, nchilada_file};
ghost use Rattle.gsd_rawarray.specs.Requests.{write_test, written_file, read_test, read_sheet};
ghost use Rattle.gsd_stores.specs.Append.{append_test, appended};
ghost use Rattle.gsd_out.specs.Out.{opening_out, listed_out, place_out, element_out, reading_out, ident_out};
ghost use Rattle.gsd_append.specs.Turns.{turn_image};
ghost use Rattle.dialmoth.specs.Out.{probes_out, reader_in, append_out, begin_out, BeginState, turn_of};

use gsd_states::STATE_WORDS;

// Frames, names, entries.
#[unsafe(no_mangle)]
pub extern "C" fn dialmoth_open(image: &[u8], out: &mut [u64; 3]) -> u64
    ensures number { result ≡ number_of (opening image.now) }
    ensures out { out.new ≡ opening_out (opening image.now) out.old }
{
    dialmoth::dialmoth_open(image, out)
}

// Start, length.
#[unsafe(no_mangle)]
pub extern "C" fn dialmoth_name(image: &[u8], n: u64, out: &mut [u64; 2]) -> u64
    ensures number { result ≡ number_of (nth_name image.now n) }
    ensures out { out.new ≡ place_out (nth_name image.now n) out.old }
{
    dialmoth::dialmoth_name(image, n, out)
}

// Frame, N, location, M, id, type, flags.
#[unsafe(no_mangle)]
pub extern "C" fn dialmoth_entry(image: &[u8], n: u64, out: &mut [u64; 7]) -> u64
    ensures number { result ≡ number_of (nth_entry image.now n) }
    ensures out { out.new ≡ listed_out (nth_entry image.now n) out.old }
{
    dialmoth::dialmoth_entry(image, n, out)
}

// As dialmoth_entry.
#[unsafe(no_mangle)]
pub extern "C" fn dialmoth_lookup(image: &[u8], frame: u64, name: &[u8], out: &mut [u64; 7]) -> u64
    ensures number { result ≡ number_of (lookup image.now frame name.now) }
    ensures out { out.new ≡ listed_out (lookup image.now frame name.now) out.old }
{
    dialmoth::dialmoth_lookup(image, frame, name, out)
}

// Start, length.
#[unsafe(no_mangle)]
pub extern "C" fn dialmoth_chunk(image: &[u8], frame: u64, name: &[u8], out: &mut [u64; 2]) -> u64
    ensures number { result ≡ number_of (chunk_place image.now frame name.now) }
    ensures out { out.new ≡ place_out (chunk_place image.now frame name.now) out.old }
{
    dialmoth::dialmoth_chunk(image, frame, name, out)
}

// Kind, bits.
#[unsafe(no_mangle)]
pub extern "C" fn dialmoth_element(
    image: &[u8],
    frame: u64,
    name: &[u8],
    k: u64,
    out: &mut [u64; 2],
) -> u64
    ensures number { result ≡ number_of (element image.now frame name.now k) }
    ensures out { out.new ≡ element_out (element image.now frame name.now k) out.old }
{
    dialmoth::dialmoth_element(image, frame, name, k, out)
}

// Entries probed, 0 where the lookup is refused before its search.
#[unsafe(no_mangle)]
pub extern "C" fn dialmoth_probes(image: &[u8], frame: u64, name: &[u8], out: &mut [u64; 1]) -> u64
    ensures number { result ≡ number_of (lookup image.now frame name.now) }
    ensures out { out.new ≡ probes_out image.now frame name.now }
{
    dialmoth::dialmoth_probes(image, frame, name, out)
}

// The file of a chunk goes into a slice of its length; a refusal writes nothing.
#[unsafe(no_mangle)]
pub extern "C" fn dialmoth_nchilada(
    image: &[u8],
    frame: u64,
    name: &[u8],
    step: f64,
    file: &mut [u8],
) -> u64
    ensures number { result ≡ nchilada_number image.now frame name.now step (length file.old) }
    ensures file { file.new ≡ nchilada_file image.now frame name.now step file.old }
{
    dialmoth::dialmoth_nchilada(image, frame, name, step, file)
}

// A chunk as a RawArray file, in a slice of its length; a refusal writes nothing.
#[unsafe(no_mangle)]
pub extern "C" fn dialmoth_rawarray_write(
    image: &[u8],
    frame: u64,
    name: &[u8],
    file: &mut [u8],
) -> u64
    ensures number { result ≡ write_test image.now frame name.now (length file.old) }
    ensures file { file.new ≡ written_file image.now frame name.now file.old }
{
    dialmoth::dialmoth_rawarray_write(image, frame, name, file)
}

// A RawArray file as the sheet of one row, in a slice of its length; a refusal writes nothing.
#[unsafe(no_mangle)]
pub extern "C" fn dialmoth_rawarray_read(file: &[u8], name: &[u8], sheet: &mut [u8]) -> u64
    ensures number { result ≡ read_test file.now name.now (length sheet.old) }
    ensures sheet { sheet.new ≡ read_sheet file.now name.now sheet.old }
{
    dialmoth::dialmoth_rawarray_read(file, name, sheet)
}

// The reader's words.
#[unsafe(no_mangle)]
pub extern "C" fn dialmoth_reader_open(image: &[u8], reader: &mut [u64; 8]) -> u64
    ensures number { result ≡ number_of (reading image.now) }
    ensures out { reader.new ≡ reading_out (reading image.now) reader.old }
{
    dialmoth::dialmoth_reader_open(image, reader)
}

// Start, length.
#[unsafe(no_mangle)]
pub extern "C" fn dialmoth_reader_name(
    reader: &[u64; 8],
    image: &[u8],
    n: u64,
    out: &mut [u64; 2],
) -> u64
    ensures number { result ≡ number_of (name_by (reader_in reader.now) image.now n) }
    ensures out { out.new ≡ place_out (name_by (reader_in reader.now) image.now n) out.old }
{
    dialmoth::dialmoth_reader_name(reader, image, n, out)
}

// As dialmoth_entry.
#[unsafe(no_mangle)]
pub extern "C" fn dialmoth_reader_entry(
    reader: &[u64; 8],
    image: &[u8],
    n: u64,
    out: &mut [u64; 7],
) -> u64
    ensures number { result ≡ number_of (entry_by (reader_in reader.now) image.now n) }
    ensures out { out.new ≡ listed_out (entry_by (reader_in reader.now) image.now n) out.old }
{
    dialmoth::dialmoth_reader_entry(reader, image, n, out)
}

// As dialmoth_entry.
#[unsafe(no_mangle)]
pub extern "C" fn dialmoth_reader_lookup(
    reader: &[u64; 8],
    image: &[u8],
    frame: u64,
    name: &[u8],
    out: &mut [u64; 7],
) -> u64
    ensures number { result ≡ number_of (lookup_by (reader_in reader.now) image.now frame name.now) }
    ensures out { out.new
        ≡ listed_out (lookup_by (reader_in reader.now) image.now frame name.now) out.old }
{
    dialmoth::dialmoth_reader_lookup(reader, image, frame, name, out)
}

// Start, length.
#[unsafe(no_mangle)]
pub extern "C" fn dialmoth_reader_chunk(
    reader: &[u64; 8],
    image: &[u8],
    frame: u64,
    name: &[u8],
    out: &mut [u64; 2],
) -> u64
    ensures number { result ≡ number_of (chunk_place_by (reader_in reader.now) image.now frame name.now) }
    ensures out { out.new
        ≡ place_out (chunk_place_by (reader_in reader.now) image.now frame name.now) out.old }
{
    dialmoth::dialmoth_reader_chunk(reader, image, frame, name, out)
}

// Kind, bits.
#[unsafe(no_mangle)]
pub extern "C" fn dialmoth_reader_element(
    reader: &[u64; 8],
    image: &[u8],
    frame: u64,
    name: &[u8],
    k: u64,
    out: &mut [u64; 2],
) -> u64
    ensures number { result ≡ number_of (element_by (reader_in reader.now) image.now frame name.now k) }
    ensures out { out.new
        ≡ element_out (element_by (reader_in reader.now) image.now frame name.now k) out.old }
{
    dialmoth::dialmoth_reader_element(reader, image, frame, name, k, out)
}

// The id.
#[unsafe(no_mangle)]
pub extern "C" fn dialmoth_reader_id(
    reader: &[u64; 8],
    image: &[u8],
    name: &[u8],
    out: &mut [u64; 1],
) -> u64
    ensures number { result ≡ number_of (id_by (reader_in reader.now) image.now name.now) }
    ensures out { out.new
        ≡ ident_out (id_by (reader_in reader.now) image.now name.now) out.old }
{
    dialmoth::dialmoth_reader_id(reader, image, name, out)
}

// As dialmoth_entry.
#[unsafe(no_mangle)]
pub extern "C" fn dialmoth_reader_find(
    reader: &[u64; 8],
    image: &[u8],
    frame: u64,
    id: u64,
    out: &mut [u64; 7],
) -> u64
    ensures number { result ≡ number_of (find_by (reader_in reader.now) image.now frame id) }
    ensures out { out.new ≡ listed_out (find_by (reader_in reader.now) image.now frame id) out.old }
{
    dialmoth::dialmoth_reader_find(reader, image, frame, id, out)
}

// As dialmoth_entry, of the newest frame at or below.
#[unsafe(no_mangle)]
pub extern "C" fn dialmoth_reader_newest(
    reader: &[u64; 8],
    image: &[u8],
    frame: u64,
    id: u64,
    out: &mut [u64; 7],
) -> u64
    ensures number { result ≡ number_of (newest_by (reader_in reader.now) image.now frame id) }
    ensures out { out.new ≡ listed_out (newest_by (reader_in reader.now) image.now frame id) out.old }
{
    dialmoth::dialmoth_reader_newest(reader, image, frame, id, out)
}

// A refusal changes no byte.
#[unsafe(no_mangle)]
pub extern "C" fn dialmoth_create(
    image: &mut [u8],
    application: &[u8],
    schema: &[u8],
    schema_version: u32,
    slots: u64,
    segments: u64,
) -> u64
    ensures number { result ≡ create_number image.old application.now schema.now slots segments }
    ensures image { image.new
        ≡ created image.old application.now schema.now schema_version slots segments }
{
    dialmoth::dialmoth_create(image, application, schema, schema_version, slots, segments)
}

// Stores done, stores of the whole append, listed entries that it copies: three zeros where it is refused, which changes no
// byte of the image.
#[unsafe(no_mangle)]
pub extern "C" fn dialmoth_append(
    image: &mut [u8],
    sheet: &[u8],
    limit: u64,
    out: &mut [u64; 3],
) -> u64
    ensures number { result ≡ append_test image.old sheet.now }
    ensures image { image.new ≡ appended image.old sheet.now limit }
    ensures out { out.new ≡ append_out image.old sheet.now limit }
{
    dialmoth::dialmoth_append(image, sheet, limit, out)
}

// Stores of the whole append, listed entries that it copies: two zeros where it is refused. The state is set at every call.
#[unsafe(no_mangle)]
pub extern "C" fn dialmoth_begin(
    image: &[u8],
    sheet: &[u8],
    state: &mut [u64; STATE_WORDS],
    out: &mut [u64; 2],
) -> u64
    ensures number { result ≡ append_test image.now sheet.now }
    ensures state { BeginState image.now sheet.now state.new }
    ensures out { out.new ≡ begin_out image.now sheet.now }
{
    dialmoth::dialmoth_begin(image, sheet, state, out)
}

// Stores made by this turn, 0 where it is refused, which changes neither the image nor the state.
#[unsafe(no_mangle)]
pub extern "C" fn dialmoth_turn(
    state: &mut [u64; STATE_WORDS],
    image: &mut [u8],
    sheet: &[u8],
    limit: u64,
    out: &mut [u64; 1],
) -> u64
    ensures number { result ≡ (turn_of state.old image.old sheet.now limit).number }
    ensures image { image.new ≡ turn_image (record { words = state.old }) image.old sheet.now limit }
    ensures state { state.new ≡ (turn_of state.old image.old sheet.now limit).state.words }
    ensures out { out.new ≡ (turn_of state.old image.old sheet.now limit).made ∷ [] }
{
    dialmoth::dialmoth_turn(state, image, sheet, limit, out)
}
