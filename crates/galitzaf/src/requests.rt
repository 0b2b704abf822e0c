// A device's requests.
ghost use Rattle.std.specs.Prelude.{◌≡◌};
ghost use Rattle.galitzaf.specs.Calls.{memory_call, interrupt_call};

use packing::{BAD_KIND, OK, bad_arguments, pack_interrupt, store, store_memory, unpack};
use registers::SourceId;
use unit::{InterruptRequest, MemoryRequest, interrupt_request, memory_request};

#[unsafe(no_mangle)]
pub extern "C" fn galitzaf_memory_request(
    registers: &[u8],
    windows: &[u64],
    image: &[u8],
    source: u16,
    address: u64,
    write: u8,
    answer: &mut [u8],
) -> u32
    ensures { (result, answer.new) ≡ memory_call registers.now windows.now image.now source address write answer.old }
{
    let status = bad_arguments(registers, windows, answer.len());
    if status != OK {
        return status;
    }
    if 1 < write {
        return BAD_KIND;
    }
    let request = MemoryRequest {
        source: SourceId::from(source),
        address,
        write: write == 1,
    };
    store_memory(
        answer,
        memory_request(unpack(registers), windows, image, request),
    );
    OK
}

#[unsafe(no_mangle)]
pub extern "C" fn galitzaf_interrupt_request(
    registers: &[u8],
    windows: &[u64],
    image: &mut [u8],
    source: u16,
    address: u64,
    data: u32,
    answer: &mut [u8],
) -> u32
    ensures { (result, image.new, answer.new) ≡ interrupt_call registers.now windows.now image.old source address «data» answer.old }
{
    let status = bad_arguments(registers, windows, answer.len());
    if status != OK {
        return status;
    }
    let request = InterruptRequest {
        source: SourceId::from(source),
        address,
        data,
    };
    store(
        answer,
        pack_interrupt(interrupt_request(unpack(registers), windows, image, request)),
    );
    OK
}
