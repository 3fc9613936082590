// The weight of a row of nodes.
ghost use Rattle.std.specs.Prelude.{◌≡◌, ◌≤◌, length};
ghost use Rattle.signature.specs.Signatures.{sig_of};
ghost use Rattle.kbo.specs.Weights.{node_weight, row_weight};

use signature::signature::Signature;
use terms::pattern::Node;

// 32 nodes of weight 100 at most: no sum here comes near its type's limit.
pub fn weight(signature: &Signature, row: &[Node]) -> usize
    requires { length row.now ≤ 32 }
    ensures { result ≡ row_weight (sig_of signature.now).weight row.now }
{
    row.iter().map(|node| weight_of(signature, *node)).sum()
}

fn weight_of(signature: &Signature, node: Node) -> usize
    ensures { result ≡ node_weight (sig_of signature.now).weight node }
{
    match node {
        Node::Var(_) => 1,
        Node::App { symbol, .. } => signature.weight(symbol).map_or(1, usize::from),
    }
}
