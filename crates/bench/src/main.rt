// Document 01's bench image and its twelve cases, asked of the proved unit one after the other. Each line is that of
// examples/c/bench.c and of the command line.
#![tactic(auto)]

use std::io;
use unit::{
    Fault, InterruptAnswer, InterruptRequest, MemoryAnswer, MemoryRequest, Notice, Posted,
    Registers, SourceId,
};

// The words of the image that are not zero: root and context entries, page entries, and the interrupt table with a descriptor.
const WORDS: [(u64, u64); 15] = [
    (0x1030, 0x2001),
    (0x2100, 0x3001),
    (0x2108, 0x501),
    (0x3008, 0x4003),
    (0x4008, 0x5003),
    (0x4010, 0x40600083),
    (0x4018, 0x9003),
    (0x4020, 0x80_0000_0003),
    (0x4028, 0x7003),
    (0x5008, 0x12345001),
    (0x7FF8, 0x23456003),
    (0x6020, 0x0000_0700_0041_0001),
    (0x6028, 0x40310),
    (0x6040, 0x0000_6400_0031_8001),
    (0x6420, 0x0000_0700_00F2_0000),
];

fn registers() -> Registers {
    Registers {
        haw: 39,
        mgaw: 48,
        levels3: true,
        levels4: true,
        levels5: false,
        pages_2m: true,
        pages_1g: true,
        posting: true,
        root_table: 0x1000,
        interrupt_table: 0x6000,
        s: 3,
        te: true,
        ire: true,
        eime: false,
        cfis: false,
    }
}

fn print_fault(rt: &impl Print, fault: Fault, entry: Option<u64>) -> io::Result<()> {
    print!(rt; "fault {:02X}", fault.reason.number())?;
    if !fault.recordable {
        print!(rt; " (not recordable)")?;
    }
    print!(rt; ", record {:016X} {:016X}", fault.low, fault.high)?;
    if let Some(at) = entry {
        print!(rt; ", entry {at:X}")?;
    }
    Ok(())
}

fn print_refusal(rt: &impl Print, number: u8) -> io::Result<()> {
    print!(rt; "refused {number:X}")
}

// The device that most cases ask for: bus 03h, device and function 10h.
fn device() -> SourceId {
    SourceId::new(0x03, 0x10)
}

// A memory request and its answer, a line.
fn memory(
    rt: &impl Print,
    case: u64,
    image: &[u8],
    source: SourceId,
    address: u64,
    write: bool,
) -> io::Result<()> {
    let kind = if write { "write" } else { "read" };
    print!(rt; "{case:2}. {:04X} {kind} {address:X}", source.id)?;
    if image.len() < 32768 {
        print!(rt; ", image one byte shorter")?;
    }
    print!(rt; ": ")?;
    let request = MemoryRequest {
        source,
        address,
        write,
    };
    // One window from host address 0 shows the whole image.
    let windows = [0u64, 0, image.len() as u64];
    match unit::memory_request(registers(), &windows, image, request) {
        MemoryAnswer::Granted(host) => print!(rt; "granted {host:X}")?,
        MemoryAnswer::Blocked(fault, entry) => print_fault(rt, fault, entry)?,
        MemoryAnswer::Refused(number) => print_refusal(rt, number)?,
    }
    println!(rt;)
}

fn print_posted(rt: &impl Print, posted: Posted) -> io::Result<()> {
    print!(rt; "posted {:02X} to {:X}", posted.vector, posted.descriptor)?;
    if let Some(
        Notice {
            vector,
            destination,
        },
    ) = posted.notification
    {
        print!(rt; ", notification {vector:02X} to {destination:X}")?;
    }
    Ok(())
}

// An interrupt and its answer, without the line's end.
fn interrupt(
    rt: &impl Print,
    case: u64,
    image: &mut [u8],
    source: SourceId,
    address: u64,
    data: u32,
) -> io::Result<()> {
    print!(rt;
        "{case:2}. {:04X} interrupt {address:X}, data {data:X}: ",
        source.id
    )?;
    let request = InterruptRequest {
        source,
        address,
        data,
    };
    let windows = [0u64, 0, image.len() as u64];
    match unit::interrupt_request(registers(), &windows, image, request) {
        InterruptAnswer::Passed => print!(rt; "passed"),
        InterruptAnswer::Remapped(remapped) => {
            print!(rt;
                "vector {:02X}, destination {:X}",
                remapped.vector, remapped.destination
            )
        }
        InterruptAnswer::Posted(posted) => print_posted(rt, posted),
        InterruptAnswer::Blocked(fault, entry) => print_fault(rt, fault, entry),
        InterruptAnswer::Refused(number) => print_refusal(rt, number),
    }
}

// The two bytes that a post of case 12 sets.
fn print_post(rt: &impl Print, image: &[u8; 32768]) -> io::Result<()> {
    println!(rt;
        "; byte 6406 is {:X}, byte 6420 is {:X}",
        image[0x6406], image[0x6420]
    )
}

fn memory_cases(rt: &impl Print, image: &[u8; 32768]) -> io::Result<()> {
    memory(rt, 1, image, device(), 0x4020_1ABC, false)?;
    memory(rt, 2, image, device(), 0x4020_1ABC, true)?;
    memory(rt, 3, image, device(), 0x4020_2000, false)?;
    memory(rt, 4, image, device(), 0x4041_2345, false)?;
    memory(rt, 5, image, device(), 0x4060_0000, false)?;
    memory(rt, 6, image, device(), 0x4080_0000, false)?;
    memory(rt, 7, image, device(), 0x40BF_F000, false)?;
    memory(rt, 7, &image[..32767], device(), 0x40BF_F000, false)?;
    memory(rt, 8, image, device(), 0x7F_FFFF_FFFF, false)?;
    memory(rt, 8, image, device(), 0x80_0000_0000, false)?;
    memory(rt, 9, image, SourceId::new(0x04, 0x10), 0x4020_1ABC, false)?;
    memory(rt, 9, image, SourceId::new(0x03, 0x11), 0x4020_1ABC, false)
}

fn interrupt_cases(rt: &impl Print, image: &mut [u8; 32768]) -> io::Result<()> {
    interrupt(rt, 10, image, device(), 0xFEE0_0050, 0)?;
    println!(rt;)?;
    interrupt(rt, 10, image, SourceId::new(0x03, 0x11), 0xFEE0_0050, 0)?;
    println!(rt;)?;
    interrupt(rt, 11, image, device(), 0xFEEF_FFFC, 3)?;
    println!(rt;)?;
    interrupt(rt, 12, image, device(), 0xFEE0_0090, 0)?;
    print_post(rt, image)?;
    interrupt(rt, 12, image, device(), 0xFEE0_0090, 0)?;
    print_post(rt, image)
}

fn main(rt: HostRuntime) -> io::Result<()> {
    let mut image = [0u8; 32768];
    for (at, word) in WORDS {
        image::store8(&mut image, at, word);
    }
    memory_cases(&rt, &image)?;
    interrupt_cases(&rt, &mut image)
}
