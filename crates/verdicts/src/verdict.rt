// How the checks' answer stands to the stored one.
ghost use Rattle.std.specs.Prelude.{◌≡◌};
ghost use Rattle.verdicts.specs.Verdicts.{verdict_of, differs};

// A refusal of the checks goes by its number, so that one verdict serves the errors of textures and of views.
#[derive(Clone, Copy, Debug, PartialEq, Eq)]
pub enum Verdict {
    BothAccept,
    BothRefuse(u32),
    OnlyChecksAccept,
    OnlyChecksRefuse(u32),
}

impl Verdict {
    pub fn is_difference(self) -> bool
        ensures { result ≡ differs self }
    {
        matches!(
            self,
            Verdict::OnlyChecksAccept | Verdict::OnlyChecksRefuse(_)
        )
    }
}

// The number of the checks' refusal, if they refused, beside whether the implementation accepted.
pub fn compare(refusal: Option<u32>, accepted: bool) -> Verdict
    ensures { result ≡ verdict_of refusal accepted }
{
    match refusal {
        None if accepted => Verdict::BothAccept,
        None => Verdict::OnlyChecksAccept,
        Some(number) if accepted => Verdict::OnlyChecksRefuse(number),
        Some(number) => Verdict::BothRefuse(number),
    }
}
