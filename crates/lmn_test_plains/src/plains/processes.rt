//! Texts without rules and their plains, worked out by hand from what the language says.
//!
//! A plain is a line for the process outside every rule, and behind it a line for each rule, by its number. A line has the
//! items of a level, each with its place: ` p/2^1(0^3 1^5)` is an atom `p` of arity 2 at column 1, and its links are the
//! numbers 0, which occurs at column 3, and 1. ` $x^3(0^5)` is a typed context with its link, ` $p^2` and ` @r^2` are bare
//! contexts and rule contexts, ` { }` is a membrane round its items, and ` #1` the rule with the number 1. Where a place
//! isn't in the first line it is `2:3`, its line and column. Behind `;` each link has its count and its first place, and its
//! third place where that is another one.
//!
//! The line of a rule begins with its place. Between head and body stand ` :-`, the conditions in brackets, each operator
//! by the name of its variant, and ` |`.

/// Texts, each with the lines of its plain.
pub(super) const PROCESSES: &[(&str, &[&str])] = &[
    // Nothing is abbreviated.
    ("", &[";"]),
    ("a, b(). 3, -5.", &[" a/0^1 b/0^4 3/0^9 -5/0^12;"]),
    (
        "p(-0,007), 5(a)",
        &[" p/2^1(0^1 1^1) 0/1^3(0^1) 7/1^6(1^1) 5/1^12(2^12) a/1^14(2^12); 2^1 2^1 2^12"],
    ),
    ("'A b'(X), 'A b'(X)", &[" A b/1^1(0^7) A b/1^11(0^17); 2^7"]),
    ("p(_), q(_)", &[" p/1^1(0^3) q/1^7(0^9); 2^3"]),
    (
        "a(X,Y,X), b(X)",
        &[" a/3^1(0^3 1^5 0^7) b/1^11(0^13); 3^3^13 1^5"],
    ),
    (
        "b(X), {c(X)}, d(X)",
        &[" b/1^1(0^3) d/1^15(0^17) { c/1^8(0^10) }; 3^3^17"],
    ),
    (
        "{a(X), {b(Y)}}, c(Z), d(X), e(Y,Z)",
        &[
            " c/1^17(0^19) d/1^23(1^25) e/2^29(2^31 0^33) { a/1^2(1^4) { b/1^9(2^11) } }; 2^19 2^4 2^11",
        ],
    ),
    (
        "{b}, a, {c. d}. e",
        &[" a/0^6 e/0^17 { b/0^2 } { c/0^10 d/0^13 };"],
    ),
    (
        "a /* x */ (X) , % y\n b(X)",
        &[" a/1^1(0^12) b/1^2:2(0^2:4); 2^12"],
    ),
    // Nested terms.
    (
        "p(q(r),s)",
        &[" p/2^1(0^1 1^1) q/2^3(2^3 0^1) r/1^5(2^3) s/1^8(1^1); 2^1 2^1 2^3"],
    ),
    ("p(X,q(X))", &[" p/2^1(0^3 1^1) q/2^5(0^7 1^1); 2^3 2^1"]),
    (
        "mod(X), X = mod",
        &[" mod/1^1(0^5) =/2^11(0^9 1^11) mod/1^13(1^11); 2^5 2^11"],
    ),
    // Lists.
    ("p([])", &[" p/1^1(0^1) []/1^1(0^1); 2^1"]),
    (
        "p([a,b])",
        &[
            " p/1^1(0^1) ./3^1(1^1 2^1 0^1) a/1^4(1^1) ./3^1(3^1 4^1 2^1) b/1^6(3^1) []/1^1(4^1); 2^1 2^1 2^1 2^1 2^1",
        ],
    ),
    (
        "p([X,Y|Z]), q(X,Y,Z)",
        &[
            " p/1^1(0^1) ./3^1(1^4 2^1 0^1) ./3^1(3^6 4^8 2^1) q/3^13(1^15 3^17 4^19); 2^1 2^4 2^1 2^6 2^8",
        ],
    ),
    (
        "p([[],q([a])|[b]])",
        &[
            " p/1^1(0^1) ./3^1(1^1 2^1 0^1) []/1^1(1^1) ./3^1(3^1 4^1 2^1) q/2^7(5^7 3^1) ./3^7(6^7 7^7 5^7) a/1^10(6^7) []/1^7(7^7) ./3^1(8^1 9^1 4^1) b/1^15(8^1) []/1^1(9^1); 2^1 2^1 2^1 2^1 2^1 2^7 2^7 2^7 2^1 2^1",
        ],
    ),
    (
        "'.'(X,Y,Z), '[]'(Y), '+'(X), a(Z)",
        &[" ./3^1(0^5 1^7 2^9) []/1^13(1^18) +/1^22(0^26) a/1^30(2^32); 2^5 2^7 2^9"],
    ),
    // Membranes as arguments, and `+`.
    ("p({})", &[" p/1^1(0^1) { +/1^1(0^1) }; 2^1"]),
    (
        "p({q(X)},X), {}",
        &[" p/2^1(0^1 1^10) { +/1^1(0^1) q/1^4(1^6) } { }; 2^1 2^6"],
    ),
    (
        "p({q({a})}), b",
        &[" p/1^1(0^1) b/0^14 { +/1^1(0^1) q/1^4(1^4) { +/1^4(1^4) a/0^7 } }; 2^1 2^4"],
    ),
    (
        "{+X, a}, p(X)",
        &[" p/1^10(0^12) { +/1^2(0^3) a/0^6 }; 2^3"],
    ),
    // The infix `=`.
    (
        "X = Y, a(X), b(Y)",
        &[" =/2^3(0^1 1^5) a/1^8(0^10) b/1^14(1^16); 2^1 2^5"],
    ),
    (
        "f(X) = g(X)",
        &[" =/2^6(0^6 1^6) f/2^1(2^3 0^6) g/2^8(2^10 1^6); 2^6 2^6 2^3"],
    ),
    (
        "[a] = X, {b} = X",
        &[
            " =/2^5(0^5 1^7) ./3^5(2^5 3^5 0^5) a/1^2(2^5) []/1^5(3^5) =/2^14(4^14 1^16) { +/1^14(4^14) b/0^11 }; 2^5 2^7 2^5 2^5 2^14",
        ],
    ),
    (
        "'='(X,Y), 'int'(X,Y)",
        &[" =/2^1(0^5 1^7) int/2^11(0^17 1^19); 2^5 2^7"],
    ),
    // Groups in parentheses.
    (
        "(a(X), ({b(X)}, c)), d",
        &[" a/1^2(0^4) c/0^17 d/0^22 { b/1^10(0^12) }; 2^4"],
    ),
];
