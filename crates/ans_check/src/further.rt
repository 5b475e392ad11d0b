//! What a row says of a file besides what is found of it.

ghost use Rattle.std.specs.Prelude.{◌≡◌, ◌≤◌, drop, length, option_map, vec_items, IfOk};
ghost use Rattle.ans_fix.specs.FlagsText.{flags_text};
ghost use Rattle.ans_model.specs.Bytes.{longest_file};
ghost use Rattle.ans_model.specs.Screen.StartClass.{all_known};
ghost use Rattle.ans_verdict.specs.FileVerdict.{IsVerdictOn};
ghost use Rattle.ans_check.specs.Further.{IsFixFor, IsFixIn, IsFixOf, IsSumIn, IsSumOf, flags_given, plain_fix};

use ans_fix::{fix_for, put_flags};
use ans_model::beginning::SAFE_BEGINNING;
use ans_model::mends::Mends;
use ans_model::start::Start;
use ans_options::TableForm;
use ans_report::Tried;
use ans_sauce::{Judged, MAX_FILE};
use ans_screen::PlaneGrid;
use ans_sums::picture_sum;
use ans_table::{Finding, Outcome};
use ans_verdict::{KeptScreens, Verdict, check, why_on};
use ans_write::Outbox;
use std::alloc::{AllocError, Global};

/// The hexadecimal digits of a picture's checksum.
pub(crate) type Digits = [u8; 64];

/// The flags of `mend` that ask for this, each after a blank.
fn flags_in(alloc: Global, mends: &Mends) -> Result<Vec<u8>, AllocError>
    ensures { IfOk result (λ text. vec_items text ≡ flags_text mends.now) }
{
    let mut device = Tried::new(Vec::new(alloc));
    let mut out = Outbox::new(&mut device);
    put_flags(&mut out, mends);
    if out.finish().is_err() {
        return Err(AllocError);
    }
    Ok(device.into_inner())
}

/// The same without the blank before the first.
fn flags_given(alloc: Global, mends: &Mends) -> Result<Vec<u8>, AllocError>
    ensures { IfOk result (λ text. vec_items text ≡ flags_given mends.now) }
{
    let flags = flags_in(alloc, mends)?;
    match flags.as_slice() {
        [_, rest @ ..] => Vec::from_slice(alloc, rest),
        [] => Ok(Vec::new(alloc)),
    }
}

/// The flags of the line `fix:` that `why` has for a file that is refused, if it has one.
fn fix_of(
    alloc: Global,
    screens: &mut KeptScreens,
    file: &[u8],
) -> Result<Option<Vec<u8>>, AllocError>
    requires { length file.now ≤ longest_file }
    ensures { IfOk result (λ fix. IsFixOf file.now (option_map vec_items fix)) }
{
    let why = why_on(screens, file)?;
    match fix_for(alloc, file, &why)? {
        Some(mends) => Ok(Some(flags_given(alloc, &mends)?)),
        None => Ok(None),
    }
}

/// The flags that mend a file of this length which passes from the cleared start and came out so: none are needed,
/// and nothing is to be mended if it passes from every start, or if there is no room for more bytes.
fn plain_fix(alloc: Global, outcome: Outcome, length: usize) -> Option<Vec<u8>>
    requires { length ≤ longest_file }
    ensures { option_map vec_items result ≡ plain_fix outcome length }
{
    match outcome {
        Outcome::Cleared if length + SAFE_BEGINNING.len() <= MAX_FILE => Some(Vec::new(alloc)),
        _ => None,
    }
}

/// The flags of the line `fix:` that `why` has for a file of which this is found, if it has one.
fn fix_found(
    alloc: Global,
    screens: &mut KeptScreens,
    file: &[u8],
    finding: &Finding<'_>,
) -> Result<Option<Vec<u8>>, AllocError>
    requires { length file.now ≤ longest_file }
    ensures { IfOk result (λ fix. IsFixFor file.now finding.now (option_map vec_items fix)) }
{
    match finding {
        Judged::NoContent(_) | Judged::Refused(..) => fix_of(alloc, screens, file),
        Judged::Passes(_, said) => {
            let outcome = Outcome::of_pass(&said.needs);
            Ok(plain_fix(alloc, outcome, file.len()))
        }
    }
}

/// The flags that mend a file, for its row in this form.
pub(crate) fn fix_in(
    alloc: Global,
    form: TableForm,
    screens: &mut KeptScreens,
    file: &[u8],
    finding: &Finding<'_>,
) -> Result<Option<Vec<u8>>, AllocError>
    requires { length file.now ≤ longest_file }
    ensures { IfOk result (λ fix. IsFixIn form file.now finding.now (option_map vec_items fix)) }
{
    match form {
        TableForm::Json => fix_found(alloc, screens, file, finding),
        TableForm::Headed | TableForm::Bare => Ok(None),
    }
}

/// The digits of the checksum of the picture of a verdict.
fn digits_by(file: &[u8], verdict: &Verdict<'_, PlaneGrid>) -> Option<Digits>
    requires { IsVerdictOn file.now all_known verdict.now }
    ensures { IsSumOf file.now result }
{
    match verdict {
        Verdict::Pass(_, picture) => Some(picture_sum(picture).digits()),
        Verdict::Refused(..) => None,
    }
}

/// The digits of the checksum of the picture that a file shows from the cleared start, if that is asked for.
pub(crate) fn digits_in(
    alloc: Global,
    pictures: bool,
    file: &[u8],
) -> Result<Option<Digits>, AllocError>
    requires { length file.now ≤ longest_file }
    ensures { IfOk result (IsSumIn pictures file.now) }
{
    if !pictures {
        return Ok(None);
    }
    let verdict = check::<PlaneGrid>(alloc, file, Start::CLEARED)?;
    Ok(digits_by(file, &verdict))
}
