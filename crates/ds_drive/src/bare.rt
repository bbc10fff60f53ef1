//! A source run on the bare machine.
ghost use Rattle.std.specs.Prelude.{◌≡◌, ℕ, List, IfErr, IfOk, OnOk};
ghost use Rattle.ds_drive.specs.Inner.BareOrder.{IsRefusedAfter};
ghost use Rattle.ds_drive.specs.BareRuns.{BareFailsBy, IsUnreadBare};
ghost use Rattle.ds_drive.specs.Inner.BareRuns.{IsReadBare, RunsOrIsFaulty, of_bare};
ghost use Rattle.ds_drive.specs.Reading.{ReadsAll, ReadsUntil, bare_names};
ghost use Rattle.ds_drive.specs.Inner.Reading.{TellsOf};

use crate::check::input_of;
use crate::failure::Failure;
use crate::files::Files;
use crate::list::Listing;
use crate::refused::FaultySource;
use crate::run::named_file;
use ds_asm::{Assembled, Image, assemble_or_faults};
use ds_bare::{BareFault, Character, keys_of, run_bare};
use ds_station::Fault;
use ds_words::{BareRequest, BareStart};
use std::alloc::Global;
use std::io::Write;

/// What a refusal of a bare run is to the program.
pub(crate) fn fault_of(fault: BareFault) -> Fault
    ensures { result ≡ of_bare fault }
{
    match fault {
        BareFault::BadRandom => Fault::BadRandom,
        BareFault::WriteFault => Fault::WriteFault,
        BareFault::Memory => Fault::Memory,
    }
}

/// What a run on the bare machine begins with.
#[derive(Drop)]
pub(crate) struct BareInputs {
    pub(crate) image: Image,
    /// The characters that come in.
    pub(crate) keys: Vec<Character>,
}

/// Reads the source, and the input where one is named, or answers the faults of the source.
#[tactic(auto, using(crate::proofs::BareLemmas::source_unread, crate::proofs::BareLemmas::input_unread, crate::proofs::BareLemmas::wrong_line, crate::proofs::BareOrders::unread_after, crate::proofs::BareOrders::input_unread_after, crate::proofs::BareOrders::line_after, crate::proofs::Readings::read_all, crate::proofs::Readings::first_unread, crate::proofs::Readings::one_then_until, crate::proofs::Readings::one_then_others))]
pub(crate) fn read_bare<'a, F: Files>(
    alloc: Global,
    start: &BareStart<'a>,
    files: &mut F,
) -> Result<Result<BareInputs, FaultySource>, Failure<'a>>
    ensures ok { IfOk result (λ read. IsReadBare read (F.holds files.old) start.now) }
    ensures err { IfErr result (λ f. IsUnreadBare f (F.holds files.old) (F.lacks files.old) start.now) }
    ensures after { IfErr result (λ f. IsRefusedAfter f (F.holds files.old) start.now) }
    ensures reads { OnOk result (ReadsAll (bare_names start.now)
        (F.asked files.old) (F.asked files.new)) }
    ensures reads_until { IfErr result (λ f. ReadsUntil (TellsOf f) (bare_names start.now)
        (F.asked files.old) (F.asked files.new)) }
    ensures kept { (file bytes : List ℕ) → F.holds files.new file bytes
        → F.holds files.old file bytes }
    ensures lacked { (file : List ℕ) → F.lacks files.new file → F.lacks files.old file }
{
    let source = named_file(alloc, files, start.source)?;
    let input = input_of(alloc, files, start.keys)?;
    let image = match assemble_or_faults(alloc, &source)? {
        Assembled::Image(image) => image,
        Assembled::Faults(faults) => {
            return Ok(Err(FaultySource {
                text: source,
                faults,
            }));
        }
    };
    match keys_of(alloc, &input) {
        Ok(keys) => Ok(Ok(BareInputs { image, keys })),
        Err(wrong) => Err(Failure::Fault(Fault::from(wrong))),
    }
}

/// Reads the source, and the input where one is named, and runs the source's image on the bare
/// machine, or answers the faults of the source. Nothing is written before both are read and good.
#[tactic(auto, using(crate::proofs::BareLemmas::never_begun, crate::proofs::BareLemmas::run_fails, crate::proofs::BareOrders::start_after, crate::proofs::Readings::read_all))]
pub fn bare_file<'a, F: Files, W: Write>(
    alloc: Global,
    request: &BareRequest<'a>,
    files: &mut F,
    out: &mut W,
) -> Result<Listing, Failure<'a>>
    ensures ok { IfOk result (λ came. RunsOrIsFaulty came (F.holds files.old) request.now
        (W.contents out.old) (W.contents out.new)) }
    ensures err { IfErr result (λ f. BareFailsBy f (F.holds files.old) (F.lacks files.old)
        request.now (W.contents out.old) (W.contents out.new)) }
    ensures after { IfErr result (λ f. IsRefusedAfter f (F.holds files.old) request.now.start) }
    ensures reads { OnOk result (ReadsAll (bare_names request.now.start)
        (F.asked files.old) (F.asked files.new)) }
    ensures reads_until { IfErr result (λ f. ReadsUntil (TellsOf f) (bare_names request.now.start)
        (F.asked files.old) (F.asked files.new)) }
    ensures kept { (file bytes : List ℕ) → F.holds files.new file bytes
        → F.holds files.old file bytes }
    ensures lacked { (file : List ℕ) → F.lacks files.new file → F.lacks files.old file }
{
    let start = &request.start;
    let inputs = match read_bare(alloc, start, files)? {
        Ok(inputs) => inputs,
        Err(source) => return Ok(Listing::Faults(source)),
    };
    match run_bare(
        alloc,
        &inputs.image,
        start.most,
        start.random,
        &inputs.keys,
        &request.view,
        out,
    ) {
        Ok(_) => Ok(Listing::Written),
        Err(refused) => Err(Failure::Fault(fault_of(refused))),
    }
}
