// Laws of whole numbers and of lists, for the proofs of other crates. The crate has no function: all it holds is in proofs/.
//
//   Ring         ring laws that the kit lacks: distributivity, negated products, another order of sums and products
//   Order        order laws: signs of differences, sums, products and squares; a positive factor taken out; comparing
//   Expression   polynomial expressions as data, and their values
//   Polynomial   the normal form of an expression, and the proof that it has the same value
//   Solver       identities by computation: `solve`, `ring`
//   Certificate  inequalities and equations by a certificate: `prove≤`, `prove<`, `prove≡`, `prove⊥`
//   Bound        bounds of absolute values: `Within n z` says |z| ≤ n
//   Machine      what the machine reads is the whole number meant, and small: answers to needs that nothing overflows
//   Examples     the worked examples that the headers of these quote, all checked
//   Parts        parts of a list that are lent and put back
//   Copying      a list that is written over from the front, or element by element
#![tactic(auto)]
