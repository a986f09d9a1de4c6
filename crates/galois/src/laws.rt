//! Laws of the field and of polynomials over it. Each function's contract is one law; the bodies are empty.

ghost use Rattle.galois.specs.Laws.{IsField, RootsAreFew, ValuesDetermine};

/// Bytes form a field under the sum and the product.
pub fn bytes_are_a_field()
    ensures { IsField }
{}

/// A polynomial of degree d has at most d roots.
pub fn roots_are_few()
    ensures { RootsAreFew }
{}

/// The values at n different elements determine a polynomial of degree below n.
pub fn values_determine()
    ensures { ValuesDetermine }
{}
