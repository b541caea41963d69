// An accepted certificate proves its property.
#![tactic(auto)]

ghost use Rattle.std.specs.Prelude.{◌≡◌, true};
ghost use Rattle.answers.specs.Answer.{is_accepted};
ghost use Rattle.rules.specs.Verdict.{verdict_of};
ghost use Rattle.rules.specs.Theorems.{PropertyHolds};
ghost use Rattle.rules.specs.Versions.{version2};

// Whether the certificate proves the node's property; where it does, the second promise says what that means.
pub fn is_proved(node: &[u8], cert: &[u8]) -> bool
    ensures verdict { result ≡ is_accepted (verdict_of version2 node.now cert.now) }
    ensures property { result ≡ true → PropertyHolds node.now }
{
    certificate::verdict(node, cert).is_ok()
}
