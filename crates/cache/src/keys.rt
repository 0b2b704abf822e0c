// The keys by which translations are held.
ghost use Rattle.std.specs.Prelude.{◌-◌, ◌+◌, ◌*◌, ◌%◌, ◌^◌, ◌<◌, ◌≤◌, ◌≡◌};
ghost use Rattle.cache.specs.Keys.{write_number, key_for};

use dma::MemoryRequest;
use registers::Page4K;

// Bit 61.
fn kind(write: bool) -> u64
    ensures { result ≡ 2 ^ 61 * write_number write }
{
    if write { 0x2000_0000_0000_0000 } else { 0 }
}

// Of a page of 4 KiB.
pub(crate) fn small_key(request: MemoryRequest) -> u64
    requires { request.address < 2 ^ 57 }
    ensures { result ≡ key_for request 1 }
{
    request.address / Page4K::SPAN
        + 0x2000_0000_0000 * request.source.id as u64
        + kind(request.write)
        + 0x4000_0000_0000_0000
}

// Of the page of 2 MiB around one of 4 KiB, and of that of 1 GiB.
pub(crate) fn medium_key(request: MemoryRequest, small: u64) -> u64
    requires { (request.address < 2 ^ 57) × (small ≡ key_for request 1) }
    ensures { result ≡ key_for request 2 }
{
    small - small % 512 + 0x4000_0000_0000_0000
}

pub(crate) fn large_key(request: MemoryRequest, small: u64) -> u64
    requires { (request.address < 2 ^ 57) × (small ≡ key_for request 1) }
    ensures { result ≡ key_for request 3 }
{
    small - small % 0x4_0000 + 0x8000_0000_0000_0000
}

pub(crate) fn key(request: MemoryRequest, level: u32) -> u64
    requires { (request.address < 2 ^ 57) × (0 < level) × (level ≤ 3) }
    ensures { result ≡ key_for request level }
{
    let small = small_key(request);
    if level == 1 {
        return small;
    }
    if level == 2 {
        return medium_key(request, small);
    }
    large_key(request, small)
}
