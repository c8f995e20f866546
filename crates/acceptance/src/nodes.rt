//! How many stretches of initial bytes objects begin, worked by hand.

ghost use Rattle.std.specs.Prelude.{◌≡◌, [], ◌∷◌, true, false};
ghost use Rattle.plm_type.specs.Nodes.{stretches_nodes};
ghost use Rattle.acceptance.specs.Nodes.{object};

/// The rows: an object's size, and how many of its bytes are initial.
fn stretches_begin()
    ensures none { stretches_nodes false (object 3 0 ∷ []) ≡ 0 }
    ensures one { stretches_nodes false (object 5 5 ∷ []) ≡ 1 }
    // one value in each of three neighbours
    ensures neighbours { stretches_nodes false (object 1 1 ∷ object 1 1 ∷ object 1 1 ∷ []) ≡ 1 }
    // a gap of one byte
    ensures gap { stretches_nodes false (object 1 1 ∷ object 1 0 ∷ object 1 1 ∷ []) ≡ 2 }
    // the first is not initial to its last byte
    ensures part { stretches_nodes false (object 3 2 ∷ object 1 1 ∷ []) ≡ 2 }
    // an object without bytes is no gap; the third goes on, and is not initial to its last byte
    ensures no_bytes { stretches_nodes false (object 2 2 ∷ object 0 0 ∷ object 3 1 ∷ object 4 4 ∷ []) ≡ 2 }
{}

#[test]
fn stretches(_rt: HostRuntime) {
    stretches_begin();
}
