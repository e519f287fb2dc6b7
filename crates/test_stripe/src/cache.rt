//! A cache of one row, and a row that is taken within some rows.

use raid_types::{Side, Span};
use std::test::Fail;
use stripe_cache::{Cache, Cached, Delayed, Kept};

#[test]
fn a_delayed_row_leaves_for_a_new_one(rt: HostRuntime) -> Result<(), Fail> {
    let mut cache = Cache::new(rt.alloc(), 1)?;
    let Kept::Here = cache.keep(Side::Old, 3, &[7; 512], 1) else {
        return Err(Fail::from("not kept"));
    };
    let mut seen = [0; 512];
    assert!(rt; cache.look(Side::Old, 3, &mut seen));
    assert_eq!(rt; seen[511], 7);
    let Kept::Evicted(
        Cached {
            row,
            changed,
            side: _,
            body: _,
        },
    ) = cache.keep(Side::New, 3, &[8; 512], 2)
    else {
        return Err(Fail::from("nothing has left"));
    };
    assert_eq!(rt; (row, changed), (3, 1));
    let gone = cache.take_delayed().ok_or("no delayed row")?;
    assert_eq!(rt; (gone.side, gone.row, gone.changed), (Side::New, 3, 2));
    assert!(rt; cache.take_delayed().is_none());
    Ok(())
}

#[test]
fn a_row_is_taken_within_its_rows_alone(rt: HostRuntime) -> Result<(), Fail> {
    let mut cache = Cache::new(rt.alloc(), 8)?;
    assert!(rt; cache.is_empty());
    let Kept::Here = cache.keep(Side::New, 15, &[7; 512], 1) else {
        return Err(Fail::from("not kept"));
    };
    let rows = Span { lo: 8, hi: 16 };
    assert!(rt; cache.take(Delayed::Within(Side::Old, rows)).is_none());
    assert!(rt;
        cache
            .take(Delayed::Within(Side::New, Span { lo: 8, hi: 15 }))
            .is_none()
    );
    assert!(rt; cache.holds(Side::New, 15) && !cache.holds(Side::Old, 15) && !cache.is_empty());
    let gone = cache
        .take(Delayed::Within(Side::New, rows))
        .ok_or("not taken")?;
    assert_eq!(rt; (gone.side, gone.row, gone.changed), (Side::New, 15, 1));
    assert!(rt; cache.is_empty());
    Ok(())
}
