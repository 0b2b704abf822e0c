// From an index through the table to a delivery. Nothing is written here.
ghost use Rattle.std.specs.Prelude.{◌≡◌, ◌%◌, ◌^◌, ◌<◌};
ghost use Rattle.image.specs.Place.{entry_at, stopped_at};
ghost use Rattle.image.specs.Rules.{run};
ghost use Rattle.image.specs.Answers.{memory_of};
ghost use Rattle.interrupts.specs.Answers.{delivery_of, DeliveryNames, post_of, PostNames};
ghost use Rattle.interrupts.specs.Interrupts.{descriptor_rules, index_rules};

use crate::answer::{BlockedBy, Delivery, Posted};
use crate::descriptor::descriptor_check;
use faults::{Reason, Stop};
use image::{Entry16, Entry64, Memory};
use irte::{Irte, irte_check};
use registers::{Registers, SourceId, at_or_above_power};

fn follow_descriptor(
    memory: &Memory,
    eime: bool,
    urgent: bool,
    fpd: bool,
    at: u64,
    vector: u8,
) -> Result<Posted, Stop<Reason>>
    requires { at % 64 ≡ 0 }
    ensures result_value { post_of result ≡ run (descriptor_rules eime urgent fpd at vector) (memory_of memory.now) }
    ensures post_names { PostNames result (entry_at at) }
{
    let Ok(d) = memory.entry::<Entry64>(at) else {
        return Err(Stop {
            reason: Reason::DescriptorAccess,
            fpd,
            at,
        });
    };
    let notification = descriptor_check(eime, urgent, fpd, at, d)?;
    Ok(Posted {
        descriptor: at,
        vector,
        notification,
    })
}

// The table lies below 2^HAW, so that no entry's address wraps, at a multiple of 4096, so that no entry leaves its page.
pub(crate) fn follow_index(
    memory: &Memory,
    registers: Registers,
    source: SourceId,
    index: u32,
) -> Result<Delivery, BlockedBy>
    requires { (registers.interrupt_table % 4096 ≡ 0) × (registers.interrupt_table < 2 ^ 52) }
    ensures result_value { delivery_of result ≡ run (index_rules registers source.id index) (memory_of memory.now) }
    ensures delivery_names { DeliveryNames result (stopped_at (index_rules registers source.id index) (memory_of memory.now)) }
{
    if at_or_above_power(index as u64, registers.s as u32 + 1) {
        return Err(BlockedBy {
            reason: Reason::IndexOutOfRange,
            fpd: false,
            entry: None,
        });
    }
    let at = registers.interrupt_table + 16 * index as u64;
    let Ok(e) = memory.entry::<Entry16>(at) else {
        return Err(BlockedBy {
            reason: Reason::IrteAccess,
            fpd: false,
            entry: Some(at),
        });
    };
    let irte = irte_check(registers, source, at, e)?;
    match irte {
        Irte::Remaps(remapped) => Ok(Delivery::Remap(remapped)),
        Irte::Posts {
            descriptor,
            vector,
            urgent,
            fpd,
        } => {
            let posted = follow_descriptor(
                memory,
                registers.eime,
                urgent,
                fpd,
                descriptor,
                vector,
            )?;
            Ok(Delivery::Post(posted))
        }
    }
}
