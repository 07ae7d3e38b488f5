//! Laws of bytes: images and nodes, images and numbers, tokens. The functions do nothing; their contracts are the laws.

ghost use Rattle.std.specs.Prelude.{◌≡◌, ◌<◌, ℕ, List};
ghost use Rattle.tp_law_machine.specs.Lower.{AllByRecursion, number, NodeState, image, node_of, IsNode, Data};

use tp_model::Token;

/// A node that has an image is the one that its image spells; bytes that spell a node are its image; and every node
/// that bytes spell has an image.
pub fn images_determine_nodes()
    ensures node { (n : NodeState) → IsNode n → node_of (image n) ≡ Some n }
    ensures bytes { (bytes : List ℕ) (n : NodeState) → node_of bytes ≡ Some n → image n ≡ bytes }
    ensures only_nodes { (bytes : List ℕ) (n : NodeState) → AllByRecursion (λ byte. byte < 256) bytes → node_of bytes ≡ Some n → IsNode n }
{}

/// Two lists of bytes with one number are equal.
pub fn numbers_determine_images()
    ensures { (b c : List ℕ) → AllByRecursion (λ byte. byte < 256) b → AllByRecursion (λ byte. byte < 256) c → number b ≡ number c → b ≡ c }
{}

/// A byte is below 256, as its type says.
fn is_byte(byte: u8)
    ensures { byte < 256 }
{}

/// The byte that a token carries is below 256, as its type says.
pub fn carries_byte(token: Token)
    ensures { (byte : ℕ) → token ≡ Data byte → byte < 256 }
{
    match token {
        Token::Data(byte) => is_byte(byte),
        Token::Ack | Token::Marker => {}
    }
}
