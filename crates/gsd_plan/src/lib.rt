// The plan of an append: every test in its order, and every place and number found before the first store. It is leaf code of
// the append: its functions have a `requires`.
#![tactic(auto)]

mod put;

ghost use Rattle.std.specs.Prelude.{◌≡◌, false};
ghost use Rattle.gsd_format.specs.Header.{v10};
ghost use Rattle.gsd_format.specs.Answers.{refused};
ghost use Rattle.gsd_stores.specs.Sheet.{sheet_test};
ghost use Rattle.gsd_stores.specs.Append.{image_test, room_test, plan_test, append_test};
ghost use Rattle.gsd_open.specs.Surveys.{Surveyed};
ghost use Rattle.gsd_sheet.specs.Rows.{Located};
ghost use Rattle.gsd_plan.specs.Planning.{Sees, Asked, Plans};

use gsd_bytes::{GREATEST_FRAME, MOST_NAMES, is_10};
use gsd_format::{Layout, Refusal};
use gsd_ids::{NewNames, find_ids};
use gsd_names::PLACES;
use gsd_open::{Survey, survey_of};
use gsd_places::{end_of_use, find_sites, place_data, place_names};
use gsd_sheet::{PLAN_WORDS, row_count, sheet_rows};
use put::{block_at, put_numbers};

// 29, and all places.
fn plan_rows(
    image: &[u8],
    sheet: &[u8],
    survey: Survey,
    new: NewNames,
    plan: &mut [u64; PLAN_WORDS],
) -> Result<(), Refusal>
    requires sees { Sees image.now survey }
    requires asked { Asked image.now sheet.now plan.old new }
    ensures { Plans image.now sheet.now (room_test image.now sheet.now) (refused result) plan.new }
{
    let rows = row_count(sheet);
    let position = place_data(plan, rows, end_of_use(survey.layout, survey.chunks_end));
    let len = image.len() as u64;
    if len < position {
        return Err(Refusal::NoRoom);
    }
    let listed = survey.names.list_end - survey.layout.namelist as usize;
    let sites = find_sites(
        survey.layout,
        position,
        (listed + new.size) as u64,
        survey.entries + rows as u64,
    );
    if len < sites.last {
        return Err(Refusal::NoRoom);
    }
    let names = block_at(sites.segments, sites.names_at, survey.layout.namelist);
    place_names(plan, new.count, names + listed as u64);
    put_numbers(plan, survey, sites, rows, new.count);
    Ok(())
}

// 28, then 29. That the rows lie where the plan says is a `requires`: a type that lends the plan could not let it be written on.
fn plan_names(
    image: &[u8],
    sheet: &[u8],
    survey: Survey,
    starts: &[u32; PLACES],
    plan: &mut [u64; PLAN_WORDS],
) -> Result<(), Refusal>
    requires surveyed { Surveyed image.now starts.now survey }
    requires recent { v10 survey.layout.version ≡ false }
    requires accepted { sheet_test survey.layout.version sheet.now ≡ 0 }
    requires located { Located sheet.now plan.old }
    ensures { Plans image.now sheet.now (plan_test image.now sheet.now) (refused result) plan.new }
{
    let listed = survey.listed(image, starts);
    let new = find_ids(&listed, sheet, plan, row_count(sheet));
    if MOST_NAMES < listed.count + new.count {
        return Err(Refusal::NamesFull);
    }
    plan_rows(image, sheet, survey, new, plan)
}

// 20, 21 and 31: the append's tests of an image that opens.
fn check_image(l: Layout, frames: u64) -> Result<(), Refusal>
    ensures { refused result ≡ image_test l frames }
{
    if is_10(l.version) {
        return Err(Refusal::OldImage);
    }
    if l.index % 8 != 0 {
        return Err(Refusal::UnalignedBlock);
    }
    if l.namelist % 8 != 0 {
        return Err(Refusal::UnalignedBlock);
    }
    if frames == GREATEST_FRAME + 1 {
        return Err(Refusal::FramesFull);
    }
    Ok(())
}

// Every test in its order, and where none refuses the append its plan. Nothing is stored.
pub fn plan_append(image: &[u8], sheet: &[u8], plan: &mut [u64; PLAN_WORDS]) -> Result<(), Refusal>
    ensures { Plans image.now sheet.now (append_test image.now sheet.now) (refused result) plan.new }
{
    let mut starts = [0u32; PLACES];
    let survey = survey_of(image, &mut starts)?;
    check_image(survey.layout, survey.frames)?;
    sheet_rows(survey.layout.version, sheet, plan)?;
    plan_names(image, sheet, survey, &starts, plan)
}
