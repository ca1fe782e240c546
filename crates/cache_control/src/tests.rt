use super::*;
use cache_terms::Verdict;
use flow_base::Text;
use std::alloc::Global;
use std::test::Fail;

// The verdict of two texts; an age of "-" is absent.
fn verdict_of(alloc: Global, cache_control: &str, age: &str) -> Result<Verdict, flow_base::Memory> {
    let cache_control = Text::of(alloc, cache_control)?;
    if age == "-" {
        return Ok(verdict(Some(&cache_control), None));
    }
    let age = Text::of(alloc, age)?;
    Ok(verdict(Some(&cache_control), Some(&age)))
}

#[test]
fn headers_say_how_long_a_reply_may_be_kept(rt: HostRuntime) -> Result<(), Fail> {
    let alloc = rt.alloc();
    // Text, age, and then lifetime, age, private and no_store.
    let table = [
        ("max-age=60", "-", 60, 0, false, false),
        ("max-age=99999999999", "-", 2147483648, 0, false, false),
        ("max-age=x", "-", 0, 0, false, false),
        ("MAX-AGE=\"60\", max-age=5", "-", 60, 0, false, false),
        ("max-age=60,, no-cache", "-", 60, 0, false, true),
        ("", "-", 0, 0, false, false),
        (" ,\t, ", "-", 0, 0, false, false),
        ("public, max-age=60, s-maxage=5", "-", 5, 0, false, false),
        (
            "s-maxage=x, s-maxage=7, max-age=60",
            "-",
            0,
            0,
            false,
            false,
        ),
        ("max-age=5, max-age=60", "-", 5, 0, false, false),
        ("max-age", "-", 0, 0, false, false),
        ("max-age=\"\"", "-", 0, 0, false, false),
        ("max-age=\"6\\0\"", "-", 0, 0, false, false),
        ("max-age=-1", "-", 0, 0, false, false),
        ("max-age= 60", "-", 0, 0, false, true),
        ("max-age =60", "-", 0, 0, false, true),
        ("max-age=", "-", 0, 0, false, true),
        ("private, max-age=60 max-age=5", "-", 0, 0, false, true),
        (
            "private=\"set-cookie, x\", max-age=60",
            "-",
            60,
            0,
            true,
            false,
        ),
        ("Private=x;y", "-", 0, 0, false, true),
        ("PRIVATE\t,No-Store", "-", 0, 0, true, true),
        ("no-cache=\"set-cookie\", max-age=9", "-", 9, 0, false, true),
        (
            "community=\"a, max-age=5\", max-age=60",
            "-",
            60,
            0,
            false,
            false,
        ),
        ("a=\"\\\"\", max-age=60", "-", 60, 0, false, false),
        ("a=\"\\\", max-age=60", "-", 0, 0, false, true),
        ("a=\"é\tß\", max-age=60", "-", 60, 0, false, false),
        ("a=\"\u{7f}\", max-age=60", "-", 0, 0, false, true),
        ("a=\"\u{1}\", max-age=60", "-", 0, 0, false, true),
        ("é, max-age=60", "-", 0, 0, false, true),
        ("max-age=60, =5", "-", 0, 0, false, true),
        (
            "no-transform, must-revalidate, max-age=0060",
            "-",
            60,
            0,
            false,
            false,
        ),
        (
            "max-age=2147483649",
            "2147483647",
            2147483648,
            2147483647,
            false,
            false,
        ),
        ("max-age=60", "\t 12 , 99", 60, 12, false, false),
        (
            "max-age=60",
            "18446744073709551617",
            60,
            2147483648,
            false,
            false,
        ),
        ("max-age=60", "1 2", 60, 0, false, false),
        ("max-age=60", "", 60, 0, false, false),
        ("max-age=60", ",5", 60, 0, false, false),
        ("max-age=60", "-5", 60, 0, false, false),
    ];
    for (cache_control, age, seconds, since, private, no_store) in table {
        let verdict = verdict_of(alloc, cache_control, age)?;
        assert_eq!(rt; verdict.lifetime, seconds, "at {cache_control}");
        assert_eq!(rt; verdict.age, since, "at {age}");
        assert_eq!(rt; verdict.private, private, "at {cache_control}");
        assert_eq!(rt; verdict.no_store, no_store, "at {cache_control}");
    }
    let age = Text::of(alloc, "7")?;
    let absent = verdict(None, Some(&age));
    assert_eq!(rt; (absent.lifetime, absent.age), (0, 7));
    assert_eq!(rt; (absent.private, absent.no_store), (false, false));
    Ok(())
}
