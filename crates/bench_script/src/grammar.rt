ghost use Rattle.std.specs.Prelude.{◌≡◌, ℕ, List, Some, Ok};
ghost use Rattle.mcal_base.specs.declared.directive.Directive.{Directive};
ghost use Rattle.mcal_base.specs.declared.directive.Order.{Order};
ghost use Rattle.bench_script.specs.Orders.{order_of};
ghost use Rattle.bench_script.specs.Productions.{IsOrder, IsScript};
ghost use Rattle.bench_script.specs.Script.{script};

/// What is read is in the grammar, and what is in the grammar is read: the words of a line as an order, and a text as
/// a script of at most 50,000 directives.
pub fn reads_the_grammar()
    ensures order_is { (words : List (List ℕ)) (order : Order) → order_of words ≡ Ok (Some order) → IsOrder order words }
    ensures order_again { (words : List (List ℕ)) (order : Order) → IsOrder order words → order_of words ≡ Ok (Some order) }
    ensures script_is { (text : List ℕ) (directives : List Directive) → script text ≡ Ok directives → IsScript directives text }
    ensures script_again { (text : List ℕ) (directives : List Directive) → IsScript directives text → script text ≡ Ok directives }
{}
