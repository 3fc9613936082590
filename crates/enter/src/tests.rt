use crate::{enter, enter_instance};
use bank::cell::Cell;
use lent_list::Count;
use refusal::Refusal;
use signature::signature::Signature;
use std::test::Fail;
use terms::pattern::{Node, Pattern};

// f(X3,g(a,X3))
fn pattern() -> Option<Pattern> {
    Pattern::new(&[
        Node::App {
            symbol: 1,
            arity: 2,
        },
        Node::Var(3),
        Node::App {
            symbol: 2,
            arity: 2,
        },
        Node::App {
            symbol: 0,
            arity: 0,
        },
        Node::Var(3),
    ])
}

#[test]
fn enters_once(rt: HostRuntime) -> Result<(), Fail> {
    let signature = Signature::read(b"a\t0\t1\nf\t2\t1\ng\t2\t1\n")?;
    let Some(pattern) = pattern() else {
        assert!(rt; false);
        return Ok(());
    };
    let mut cells = [Cell::Var(9); 8];
    let mut count = Count { len: 1 };
    assert_eq!(rt; enter(&signature, &pattern, &mut cells, &mut count)?, 4);
    assert_eq!(rt; enter(&signature, &pattern, &mut cells, &mut count)?, 4);
    assert_eq!(rt; count.len, 5);
    assert!(rt;
        cells[3]
            == Cell::App {
                symbol: 2,
                arity: 2,
                args: [2, 1, 0, 0],
            }
    );
    assert_eq!(rt;
        enter_instance(
            &pattern,
            &[None, None, None, Some(2)],
            &mut cells,
            &mut count,
        )?,
        6
    );
    assert!(rt;
        cells[5]
            == Cell::App {
                symbol: 2,
                arity: 2,
                args: [2, 2, 0, 0],
            }
    );
    Ok(())
}

#[test]
fn refuses(rt: HostRuntime) -> Result<(), Fail> {
    let signature = Signature::read(b"a\t0\t1\nf\t2\t1\n")?;
    let Some(pattern) = pattern() else {
        assert!(rt; false);
        return Ok(());
    };
    let mut cells = [Cell::Var(9); 3];
    let mut count = Count { len: 1 };
    assert!(rt; enter(&signature, &pattern, &mut cells, &mut count) == Err(Refusal::BankRules));
    assert!(rt;
        enter_instance(&pattern, &[], &mut cells, &mut count) == Err(Refusal::GoalTooLarge)
    );
    assert_eq!(rt; count.len, 1);
    Ok(())
}
