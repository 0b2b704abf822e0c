// The context entry of scalable mode, 32 bytes, which are held as 64 whose upper half is 0.
ghost use Rattle.std.specs.Prelude.{◌≡◌, ◌^◌, ◌<◌};
ghost use Rattle.image.specs.Bits.{bits, any_set};
ghost use Rattle.image.specs.Answers.{number64};
ghost use Rattle.pasid.specs.Answers.{context_checked};
ghost use Rattle.pasid.specs.Context.{context_reserved, beyond as pasid_beyond, context_invalid, pasid_of as pasid_for, context_of, context_check};

use crate::Pasid;
use crate::reason::ScalableReason;
use image::{Entry, Entry64, in_place};
use registers::at_or_above_power;

// What a context entry says of a request.
#[derive(Clone, Copy)]
pub struct ScalableContext {
    // The PASID directory's address.
    pub directory: u64,
    // The request's PASID, or RID_PASID where it has none.
    pub pasid: u32,
    // Only a request without a PASID may be, by RID_PRIV.
    pub privileged: bool,
    pub fpd: bool,
}

// Bits 255:85.
fn upper_set(e: Entry64) -> bool
    ensures { result ≡ any_set (number64 e) 255 85 }
{
    e.any_set(127, 85) | (e.any_set(191, 128) | e.any_set(255, 192))
}

// Bits 8:5, 63:HAW and 255:85.
fn context_reserved(haw: u8, e: Entry64) -> bool
    ensures { result ≡ context_reserved haw (number64 e) }
{
    e.any_set(8, 5) | at_or_above_power(e.w0, haw as u32) | upper_set(e)
}

// PDTS, bits 11:9.
#[tactic(auto, using(image::proofs::Fields::fits))]
fn directory_size(e: Entry64) -> u64
    ensures { (result ≡ bits (number64 e) 11 9) × (result < 8) }
{
    e.bits(11, 9)
}

// RID_PASID, bits 83:64.
#[tactic(auto, using(image::proofs::Fields::fits))]
fn rid_pasid(e: Entry64) -> u64
    ensures { (result ≡ bits (number64 e) 83 64) × (result < 2 ^ 20) }
{
    e.bits(83, 64)
}

// The directory has 2^(PDTS+7) entries of 64 PASIDs each.
fn beyond(e: Entry64, pasid: u64) -> bool
    ensures { result ≡ pasid_beyond (number64 e) pasid }
{
    at_or_above_power(pasid, directory_size(e) as u32 + 13)
}

// PRE without DTE; a RID_PASID that the directory doesn't hold, where it is used.
#[tactic(auto, unfolding(crate::specs::Context::context_invalid))]
fn context_invalid(pasid: Pasid, e: Entry64) -> bool
    ensures { result ≡ context_invalid pasid (number64 e) }
{
    (!e.bit(2) & e.bit(4)) | (!pasid.present & beyond(e, rid_pasid(e)))
}

fn pasid_of(pasid: Pasid, e: Entry64) -> u32
    ensures { result ≡ pasid_for pasid (number64 e) }
{
    if pasid.present {
        return pasid.value;
    }
    rid_pasid(e) as u32
}

fn context_of(pasid: Pasid, e: Entry64) -> ScalableContext
    ensures { result ≡ context_of pasid (number64 e) }
{
    ScalableContext {
        directory: in_place(e.w0, 63, 12),
        pasid: pasid_of(pasid, e),
        privileged: !pasid.present & e.bit(84),
        fpd: e.bit(1),
    }
}

// What the entry says, or why the request ends here.
#[tactic(auto, unfolding(crate::specs::Context::context_check))]
pub fn context_check(haw: u8, pasid: Pasid, e: Entry64) -> Result<ScalableContext, ScalableReason>
    ensures { context_checked result ≡ context_check haw pasid (number64 e) }
{
    if !e.bit(0) {
        return Err(ScalableReason::ContextNotPresent);
    }
    if context_reserved(haw, e) {
        return Err(ScalableReason::ContextReserved);
    }
    if context_invalid(pasid, e) {
        return Err(ScalableReason::ContextInvalid);
    }
    if pasid.present & !e.bit(3) {
        return Err(ScalableReason::PasidDisabled);
    }
    if pasid.present & beyond(e, pasid.value as u64) {
        return Err(ScalableReason::PasidOutOfRange);
    }
    Ok(context_of(pasid, e))
}
