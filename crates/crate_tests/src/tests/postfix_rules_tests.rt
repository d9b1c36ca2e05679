//! Formulas that are read and written with memory at hand.

use postfix_rules::{Formula, read_infix, read_postfix, write_formula};
use std::alloc::{AllocError, Global};
use std::test::Fail;

// Texts over two native events, and how the formula is written, or the place and the cause of the first fault.
const POSTFIX: &str = "N0|N1|-|2|*| -> N0|N1|-|2|*|\n\
N00| 007 |/ -> N0|7|/|\n\
N1|0|+|9223372036854775807|- -> N1|0|+|9223372036854775807|-|\n\
N0|+| -> token 2: operand missing\n\
N0|N1| -> token 3: operands left\n\
N0|N1 -> token 3: operands left\n\
N2| -> token 1: no such native event\n\
N4294967296| -> token 1: no such native event\n\
9223372036854775808| -> token 1: constant too large\n\
18446744073709551616| -> token 1: constant too large\n\
\x20-> token 1: operand missing\n\
\x20 -> token 1: operand missing\n\
N0|x| -> token 2: unknown token\n\
N0|x -> token 2: unknown token\n\
N0| |N1| -> token 2: unknown token\n\
| -> token 1: unknown token\n\
N| -> token 1: unknown token\n\
+5| -> token 1: unknown token\n\
N 0| -> token 1: unknown token\n\
1|1|1|1|1|1|1|1|1|1|1|1|1|1|1|1|1| -> token 17: too deep\n\
1|1|1|1|1|1|1|1|1|1|1|1|1|1|1|1|N2| -> token 17: no such native event\n\
1|1|1|1|1|1|1|1|1|1|1|1|1|1|1|1| -> token 17: operands left";

// The same of texts in infix order.
const INFIX: &str = "N0*(N1+2)-N0/2 -> N0|N1|2|+|*|N0|2|/|-|\n\
8-3-2 -> 8|3|-|2|-|\n\
8-(3-2) -> 8|3|2|-|-|\n\
N0 -> N0|\n\
\x20\tN00 \t -> N0|\n\
1+2*3 -> 1|2|3|*|+|\n\
1*2+3 -> 1|2|*|3|+|\n\
1*2*3/N1 -> 1|2|*|3|*|N1|/|\n\
8/4/2 -> 8|4|/|2|/|\n\
8/4*2 -> 8|4|/|2|*|\n\
1-2+3 -> 1|2|-|3|+|\n\
1-2*3-4 -> 1|2|3|*|-|4|-|\n\
(1+2)*3 -> 1|2|+|3|*|\n\
3*(1+2) -> 3|1|2|+|*|\n\
((N1)) -> N1|\n\
(N0-N1)*2 -> N0|N1|-|2|*|\n\
(1+2)*(3-4)/(N0) -> 1|2|+|3|4|-|*|N0|/|\n\
1+(2) -> 1|2|+|\n\
9223372036854775807 -> 9223372036854775807|\n\
007 + N1 -> 7|N1|+|\n\
((((((((((((((((N0)))))))))))))))) -> N0|\n\
1+(1+(1+(1+(1+(1+(1+(1+(1+(1+(1+(1+(1+(1+(1+(1))))))))))))))) -> 1|1|1|1|1|1|1|1|1|1|1|1|1|1|1|1|+|+|+|+|+|+|+|+|+|+|+|+|+|+|+|\n\
\x20-> token 1: operand missing\n\
\x20  -> token 1: operand missing\n\
-N0 -> token 1: operand missing\n\
N0+*N1 -> token 3: operand missing\n\
N0 N1 -> token 2: operands left\n\
(N0 -> token 3: unbalanced parentheses\n\
N0) -> token 2: unbalanced parentheses\n\
N0+ -> token 3: operand missing\n\
( -> token 2: operand missing\n\
) -> token 1: operand missing\n\
() -> token 2: operand missing\n\
(1+) -> token 4: operand missing\n\
1(2) -> token 2: operands left\n\
(1)(2) -> token 4: operands left\n\
(1)2 -> token 4: operands left\n\
12N0 -> token 2: operands left\n\
N0N1 -> token 2: operands left\n\
((1) -> token 5: unbalanced parentheses\n\
(1))+N9 -> token 4: unbalanced parentheses\n\
N2 -> token 1: no such native event\n\
N4294967296 -> token 1: no such native event\n\
1 N2 -> token 2: no such native event\n\
9223372036854775808 -> token 1: constant too large\n\
18446744073709551616 -> token 1: constant too large\n\
1 9223372036854775808 -> token 2: constant too large\n\
N -> token 1: unknown token\n\
N 0 -> token 1: unknown token\n\
n0 -> token 1: unknown token\n\
1+x -> token 3: unknown token\n\
1#2 -> token 2: unknown token\n\
N0|N1 -> token 2: unknown token\n\
(((((((((((((((((N0))))))))))))))))) -> token 17: too deep\n\
1 ( -> token 2: operands left\n\
1+(1+(1+(1+(1+(1+(1+(1+(1+(1+(1+(1+(1+(1+(1+(1+(1)))))))))))))))) -> token 66: too deep";

fn told_of_postfix(alloc: Global, text: &str) -> Result<String, AllocError> {
    match read_postfix(alloc, text, 2) {
        Ok(formula) => {
            let copy = Formula::copy_of(alloc, &formula)?;
            write_formula(alloc, &copy)
        }
        Err(fault) => format!(in alloc; "{fault}"),
    }
}

fn told_of_infix(alloc: Global, text: &str) -> Result<String, AllocError> {
    match read_infix(alloc, text, 2) {
        Ok(formula) => write_formula(alloc, &formula),
        Err(fault) => format!(in alloc; "{fault}"),
    }
}

#[test]
fn written_and_refused_texts(rt: HostRuntime) -> Result<(), Fail> {
    for line in POSTFIX.lines() {
        let (text, told) = line.split_once(" -> ").expect(&rt, "a text");
        assert_eq!(rt; told_of_postfix(rt.alloc(), text)?.as_str(), told, "{text}");
    }
    for line in INFIX.lines() {
        let (text, told) = line.split_once(" -> ").expect(&rt, "a text");
        assert_eq!(rt; told_of_infix(rt.alloc(), text)?.as_str(), told, "{text}");
    }
    Ok(())
}
