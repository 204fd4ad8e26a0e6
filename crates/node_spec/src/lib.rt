// What nodes stand for (01, "The chart card"): specs/Kind.antt says what each kind is, specs/Row.antt which charts a
// row of nodes stands for. A node itself is the type `Node` of the crate `node`.
#![tactic(auto)]
