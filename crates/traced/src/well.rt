// Which entries are laid out well, answer by answer.
ghost use Rattle.std.specs.Prelude.{◌≡◌};
ghost use Rattle.traced.specs.Well.{well_asked, bare, no_number, no_notification, well_refused, well_reason, well_fault, well_granted, well_passed, well_remapped, well_posted, well_notified, well_page, well_answered, well_traced};

use crate::Traced;

fn asked(e: Traced) -> bool
    ensures { result ≡ well_asked e }
{
    (1 <= e.kind) & (e.kind <= 4) & ((e.kind == 3) | (e.data == 0))
}

fn without_notification(e: Traced) -> bool
    ensures { result ≡ no_notification e }
{
    (e.vector == 0) & (e.destination == 0)
}

fn is_bare(e: Traced) -> bool
    ensures { result ≡ bare e }
{
    without_notification(e) & (e.posted == 0)
}

fn without_number(e: Traced) -> bool
    ensures { result ≡ no_number e }
{
    (e.number == 0) & (e.flags == 0)
}

fn refused(e: Traced) -> bool
    ensures { result ≡ well_refused e }
{
    ((e.number == 1) | (e.number == 2) | ((e.number == 4) & !(e.kind == 3)))
        & (e.flags == 0)
        & is_bare(e)
        & (e.value == 0)
}

fn reason(e: Traced) -> bool
    ensures { result ≡ well_reason e }
{
    ((0x20 <= e.number) & (e.number <= 0x28) & (e.kind == 3))
        | ((0x01 <= e.number) & (e.number <= 0x0C) & !(e.kind == 3))
        | ((e.number == 0x0D) & (e.kind == 4))
}

fn fault(e: Traced) -> bool
    ensures { result ≡ well_fault e }
{
    reason(e) & (e.flags <= 3) & is_bare(e) & ((e.flags / 2 % 2 == 1) | (e.value == 0))
}

fn granted(e: Traced) -> bool
    ensures { result ≡ well_granted e }
{
    !(e.kind == 3) & without_number(e) & is_bare(e)
}

fn passed(e: Traced) -> bool
    ensures { result ≡ well_passed e }
{
    (e.kind == 3) & without_number(e) & is_bare(e) & (e.value == 0)
}

fn remapped(e: Traced) -> bool
    ensures { result ≡ well_remapped e }
{
    (e.kind == 3) & (e.number == 0) & (e.flags <= 63) & (e.posted == 0) & (e.value == 0)
}

fn posted(e: Traced) -> bool
    ensures { result ≡ well_posted e }
{
    (e.kind == 3) & without_number(e) & without_notification(e)
}

fn notified(e: Traced) -> bool
    ensures { result ≡ well_notified e }
{
    (e.kind == 3) & without_number(e)
}

fn page(e: Traced) -> bool
    ensures { result ≡ well_page e }
{
    let empty = without_number(e) & (e.value == 0);
    (e.kind == 4)
        & ((e.number == 12) | (e.number == 21) | (e.number == 30) | empty)
        & (e.flags <= 3)
        & is_bare(e)
}

fn answered(e: Traced) -> bool
    ensures { result ≡ well_answered e }
{
    ((e.answer == 1) & refused(e))
        | ((e.answer == 2) & fault(e))
        | ((e.answer == 3) & granted(e))
        | ((e.answer == 4) & passed(e))
        | ((e.answer == 5) & remapped(e))
        | ((e.answer == 6) & posted(e))
        | ((e.answer == 7) & notified(e))
        | ((e.answer == 8) & page(e))
}

pub fn is_well(e: Traced) -> bool
    ensures { result ≡ well_traced e }
{
    asked(e) & answered(e)
}
