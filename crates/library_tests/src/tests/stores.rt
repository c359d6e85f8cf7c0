ghost use Rattle.std.specs.Prelude.{IfOk};
ghost use Rattle.occ_store.specs.Stores.{HaveIntegers};

use eb_names::Name;
use eb_term::{Choice, Choices};
use eb_value::{Scope, Sizes};
use int_dom::Interval;
use occ_store::{Boxes, Store};
use std::alloc::{AllocError, Global};
use std::test::Fail;

/// Two choices of integers.
fn choices(alloc: Global) -> Result<Choices, AllocError>
    ensures { IfOk result HaveIntegers }
{
    let mut choices = Choices::new(alloc);
    choices.push(Choice::integer(Name::new(alloc, "a")?))?;
    choices.push(Choice::integer(Name::new(alloc, "b")?))?;
    Ok(choices)
}

/// A choice that isn't there gets no domain, and a domain without a value is empty.
#[test]
fn stores_keep_their_choices(rt: HostRuntime) -> Result<(), Fail> {
    let alloc = rt.alloc();
    let scope = Scope {
        lo: 0,
        hi: 3,
        sizes: Sizes::new(alloc),
        depth: 3,
    };
    let choices = choices(alloc)?;
    let mut store = Store::first(alloc, choices.as_slice(), &scope)?;
    assert!(rt; !store.is_single());
    store.put(7, Interval { lo: 1, hi: 1 });
    store.put(0, Interval { lo: 2, hi: 2 });
    assert_eq!(rt; store.domain(1), Some(Interval { lo: 0, hi: 3 }));
    assert_eq!(rt; store.domain(7), None);
    store.put(1, Interval { lo: 3, hi: 3 });
    assert!(rt; store.is_single());
    assert_eq!(rt; store.values(alloc)?.len(), 2);
    store.put(1, Interval { lo: 4, hi: 3 });
    assert!(rt; store.is_empty_at(1));
    assert!(rt; !store.is_empty_at(0));
    Ok(())
}

/// Nothing is left once the last box is closed.
#[test]
fn closed_boxes_stay_closed(rt: HostRuntime) -> Result<(), Fail> {
    let alloc = rt.alloc();
    let mut boxes = Boxes::none(alloc);
    assert!(rt; boxes.first().is_none());
    boxes.close();
    assert!(rt; boxes.first().is_none());
    Ok(())
}
