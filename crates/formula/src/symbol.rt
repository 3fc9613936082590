// What a word means in a signature.
ghost use Rattle.std.specs.Prelude.{◌≡◌};
ghost use Rattle.formula.specs.Symbols.{symbol_of};

use signature::signature::Signature;
use terms::pattern::Node;

// The symbol of a name, with its arity.
pub fn symbol_named(signature: &Signature, word: &[u8]) -> Option<Node>
    ensures { result ≡ symbol_of signature.now word.now }
{
    let symbol = signature.find(word)?;
    let arity = signature.arity(symbol)?;
    Some(Node::App { symbol, arity })
}
