// The login text, `user:password`: where it parts, and when it is refused.
#![tactic(auto)]

ghost use Rattle.std.specs.Prelude.{◌≡◌, ◌<◌, length};
ghost use Rattle.std.specs.Option.{ForSome, ForNone};
ghost use Rattle.text.specs.Login.{colon_place, read_of, user_of, password_of};
ghost use Rattle.text.specs.Paper.{reason_no, paper};

const COLON: u8 = b':';

// The longest user name, as in specs/Login.antt.
const MOST_USER: usize = 64;

// Why a text is refused.
#[derive(Clone, Copy, Debug, PartialEq, Eq)]
pub enum Reason {
    NoColon,
    UserLength,
}

// The paper's number of a reason.
impl From<Reason> for u64 {
    ghost from_gives = { λ why n. n ≡ reason_no why };

    fn from(why: Reason) -> u64 {
        match why {
            Reason::NoColon => 31,
            Reason::UserLength => 32,
        }
    }
}

// The lengths of the two parts: the user name is the text's front, the password its end. Lengths and no
// slices, as `paper` tells them and C is told them.
#[derive(Clone, Copy)]
pub struct Split {
    pub user: usize,
    pub password: usize,
}

// The place of the colon that parts the text, if there is one.
#[tactic(auto, using(crate::proofs::Places::place_found, crate::proofs::Places::place_none))]
fn colon(text: &[u8]) -> Option<usize>
    ensures found { ForSome result (λ at. (colon_place text.now ≡ at) × (at < length text.now)) }
    ensures none { ForNone result (colon_place text.now ≡ length text.now) }
{
    text.iter().rposition(|&b| b == COLON)
}

// The text's two lengths, or the first refusal that applies.
#[tactic(auto, unfolding(crate::specs::Login::read_of, crate::specs::Login::parted))]
pub fn read(text: &[u8]) -> Result<Split, Reason>
    ensures { paper result ≡ read_of text.now }
{
    let at = colon(text).ok_or(Reason::NoColon)?;
    if !(1..=MOST_USER).contains(&at) {
        return Err(Reason::UserLength);
    }
    Ok(Split {
        user: at,
        password: text.len() - at - 1,
    })
}

// The user name; empty where the text is refused, as `user_of` and `password_of` are.
#[tactic(auto, using(crate::proofs::Splits::bounds), unfolding(crate::specs::Login::user_of))]
pub fn user(text: &[u8]) -> &[u8]
    ensures { result.now ≡ user_of text.now }
{
    match read(text) {
        Ok(s) => &text[..s.user],
        Err(_) => &[],
    }
}

// The password; empty where the text is refused, and where it is empty.
#[tactic(auto, using(crate::proofs::Splits::within), unfolding(crate::specs::Login::password_of))]
pub fn password(text: &[u8]) -> &[u8]
    ensures { result.now ≡ password_of text.now }
{
    match read(text) {
        Ok(s) => &text[text.len() - s.password..],
        Err(_) => &[],
    }
}
