ghost use Rattle.std.specs.Prelude.{◌≡◌, IfSome, IfNone};
ghost use Rattle.phase_rules.specs.declared.pairs.Pairs as friedel;
ghost use Rattle.sg_cli.specs.Words.{pairs_words, texts};

use phase_rules::Pairs;

/// How Friedel pairs are taken, where the arguments say nothing else.
pub fn read_pairs(arguments: &[String]) -> Option<Pairs>
    ensures some { IfSome result (λ pairs. texts arguments.now ≡ pairs_words pairs) }
    ensures none { IfNone result ((pairs : friedel.Pairs)
        → texts arguments.now ≡ pairs_words pairs → ⊥) }
{
    match arguments {
        [] => Some(Pairs::Friedel),
        [last] if last.as_str() == "anomalous" => Some(Pairs::Apart),
        _ => None,
    }
}
