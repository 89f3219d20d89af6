//! Makes two keys neighbours in the queue.
ghost use Rattle.std.specs.Prelude.{◌≡◌, ℕ, Option, IfSome};
ghost use Rattle.slab.specs.Slab.{ContainsKey};
ghost use Rattle.pool_slots.specs.Links.{after_of, before_of, items_of, Leads};

use crate::slot::Slot;
use slab::Slab;

// Makes `after` the successor of `before`, and changes nothing else. If `before` is `None`, `after` is the first key.
#[inline(always)]
fn set_after<T>(
    slots: &mut Slab<Slot<T>>,
    first: &mut Option<usize>,
    before: Option<usize>,
    after: Option<usize>,
)
    requires { IfSome before (λ key. ContainsKey slots.old key) }
    ensures forward { Leads (after_of slots.old first.old)
        (after_of slots.new first.new) before after }
    ensures backward { (last p : Option ℕ) →
        before_of slots.new last p ≡ before_of slots.old last p }
    ensures items { items_of slots.new ≡ items_of slots.old }
    ensures capacity { slots.new.capacity ≡ slots.old.capacity }
{
    match before {
        None => *first = after,
        Some(key) => {
            let slot = &mut slots[key];
            slot.links.set_after(after);
        }
    }
}

// Makes `before` the predecessor of `after`, and changes nothing else. If `after` is `None`, `before` is the last key.
#[inline(always)]
fn set_before<T>(
    slots: &mut Slab<Slot<T>>,
    last: &mut Option<usize>,
    after: Option<usize>,
    before: Option<usize>,
)
    requires { IfSome after (λ key. ContainsKey slots.old key) }
    ensures backward { Leads (before_of slots.old last.old)
        (before_of slots.new last.new) after before }
    ensures forward { (first p : Option ℕ) →
        after_of slots.new first p ≡ after_of slots.old first p }
    ensures items { items_of slots.new ≡ items_of slots.old }
    ensures capacity { slots.new.capacity ≡ slots.old.capacity }
{
    match after {
        None => *last = before,
        Some(key) => {
            let slot = &mut slots[key];
            slot.links.set_before(before);
        }
    }
}

/// Returns the key before `after`, and the last key if `after` is `None`.
pub(crate) fn place_before<T>(
    slots: &Slab<Slot<T>>,
    last: Option<usize>,
    after: Option<usize>,
) -> Option<usize>
    requires { IfSome after (λ key. ContainsKey slots.now key) }
    ensures { result ≡ before_of slots.now last after }
{
    match after {
        None => last,
        Some(key) => slots[key].links.before(),
    }
}

/// Makes `after` the successor of `before` in the queue. `None` is before the first key and after the last one.
#[inline(always)]
pub(crate) fn join<T>(
    slots: &mut Slab<Slot<T>>,
    first: &mut Option<usize>,
    last: &mut Option<usize>,
    before: Option<usize>,
    after: Option<usize>,
)
    requires before { IfSome before (λ key. ContainsKey slots.old key) }
    requires after { IfSome after (λ key. ContainsKey slots.old key) }
    ensures forward { Leads (after_of slots.old first.old)
        (after_of slots.new first.new) before after }
    ensures backward { Leads (before_of slots.old last.old)
        (before_of slots.new last.new) after before }
    ensures items { items_of slots.new ≡ items_of slots.old }
    ensures capacity { slots.new.capacity ≡ slots.old.capacity }
{
    set_after(slots, first, before, after);
    set_before(slots, last, after, before);
}
