// The numbers of forms as they are read.
use reader::{Form, Offer, Run, Was, read_line};
use std::test::*;
use terms::Entry;

#[test]
fn numbers(rt: HostRuntime) {
    let day = read_line(b"(day 48 1000)");
    assert!(rt;
        matches!(
            day,
            Ok(Some(Form::Day {
                periods: 48,
                weight: 1000
            }))
        )
    );
    let out = read_line(b"(out 1 2 3)");
    assert!(rt;
        matches!(
            out,
            Ok(Some(Form::Out {
                unit: 1,
                first: 2,
                last: 3
            }))
        )
    );
    assert!(rt; matches!(read_line(b"(supply 4)"), Ok(Some(Form::Supply { unit: 4 }))));
    assert!(rt; matches!(read_line(b"(show 5)"), Ok(Some(Form::Show { unit: 5 }))));
    assert!(rt; matches!(read_line(b"(judge)"), Ok(Some(Form::Judge))));
}

#[test]
fn lists(rt: HostRuntime) {
    let Ok(Some(Form::Price { over, numerators })) = read_line(b"(price 7 1 -2 3)") else {
        panic!(rt; "no price");
    };
    assert_eq!(rt; over, 7);
    assert_eq!(rt; numerators.as_slice(), [1, -2, 3].as_slice());
    let Ok(Some(Form::Need { wanted })) = read_line(b"(need -2147483648 2147483647)") else {
        panic!(rt; "no need");
    };
    assert_eq!(rt; wanted.as_slice(), [i32::MIN, i32::MAX].as_slice());
    let Ok(
        Some(
            Form::Mix {
                unit,
                weight,
                schedule,
            },
        ),
    ) = read_line(b"(mix 1 2 (3 -4)(5 6))")
    else {
        panic!(rt; "no mix");
    };
    assert_eq!(rt; (unit, weight), (1, 2));
    let entries = [
        Entry {
            state: 3,
            output: -4,
        },
        Entry {
            state: 5,
            output: 6,
        },
    ];
    assert_eq!(rt; schedule.as_slice(), entries.as_slice());
}

#[test]
fn offers(rt: HostRuntime) {
    let line =
        b"(steam (run 1 10) (rest 2 3 4) (start 5 6) (idle 7) (steps (8 9) (2 -1)) (was off 11))";
    let Ok(Some(Form::Offer(Offer::Steam(steam)))) = read_line(line) else {
        panic!(rt; "no steam");
    };
    let numbers = steam.numbers;
    assert_eq!(rt; numbers.run, Run { lo: 1, hi: 10 });
    assert_eq!(rt;
        (numbers.rest.up, numbers.rest.down, numbers.rest.cold),
        (2, 3, 4)
    );
    assert_eq!(rt;
        (numbers.start.hot, numbers.start.frost, numbers.idle),
        (5, 6, 7)
    );
    let [first, second, third, _] = numbers.steps.places;
    assert_eq!(rt; (first.lots, first.price), (8, 9));
    assert_eq!(rt; (second.lots, second.price), (2, -1));
    assert_eq!(rt; third.lots, 0);
    assert_eq!(rt; numbers.was, Was::Off(11));
}
