//! Theorems about the definitions alone. To cite one in a proof, call it.
ghost use Rattle.std.specs.Prelude.{◌≡◌, ◌↔◌, ℕ, List, codes};
ghost use Rattle.http.specs.{declared.version.Version.Version, declared.version.TheConstants.Version.HTTP_11};
ghost use Rattle.websocket.specs.Handshake.{IsValidKey, accept_key_of};
ghost use Rattle.http_header.specs.FieldValue.{FieldValue};
ghost use Rattle.headers.specs.{LineMap.LineMap, Lines.Line};
ghost use Rattle.decide_handshake.specs.{Client.Checks, Client.IsOpened, Client.SendsKey, Extensions.HasExtensions};
ghost use Rattle.decide_handshake.specs.{Protocols.OffersProtocols, declared.client.Checked.Checked};
ghost use Rattle.decide_handshake.specs.{Origins.OriginList, declared.server.HandshakeAnswer.HandshakeAnswer};
ghost use Rattle.decide_handshake.specs.Messages.{Carries, CarriesButOffers, FitsProtocol, answer_fields};
ghost use Rattle.decide_handshake.specs.Messages.{request_fields, status_of};
ghost use Rattle.decide_handshake.specs.Server.{Answers, HasHost, HasKey, IsAccepted, IsHandshake, IsSwitch};

/// Theorem: every request has exactly one answer.
pub fn request_has_one_answer()
    ensures some { (method : List ℕ) (version : Version) (request : LineMap) (origins : OriginList)
        (own : List FieldValue)
        → (answer : HandshakeAnswer) × Answers method version request origins own answer }
    ensures one { (method : List ℕ) (version : Version) (request : LineMap) (origins : OriginList)
        (own : List FieldValue) (a b : HandshakeAnswer) → Answers method version request origins own a
        → Answers method version request origins own b → a ≡ b }
{}

/// Theorem: a server switches exactly if the request is an opening handshake from an allowed
/// origin.
pub fn switches_for_handshakes()
    ensures only { (method : List ℕ) (version : Version) (request : LineMap) (origins : OriginList)
        (own : List FieldValue) (a : HandshakeAnswer) → Answers method version request origins own a → IsSwitch a
        → (key : Line) × IsAccepted method version request origins key }
    ensures all { (method : List ℕ) (version : Version) (request : LineMap) (origins : OriginList)
        (own : List FieldValue) (a : HandshakeAnswer) (key : Line) → Answers method version request origins own a
        → IsAccepted method version request origins key → IsSwitch a }
{}

/// Theorem: a request with the fields of `request` is an opening handshake with the key that
/// `request` makes. It must be a GET of HTTP/1.1 with a Host field. Lists of subprotocols and
/// extensions may be added to it.
pub fn requests_are_handshakes()
    ensures bare { (key : Line) (map request : LineMap) → IsValidKey key → HasHost map
        → Carries (request_fields key) map request → IsHandshake (codes "GET") HTTP_11 request key }
    ensures offering { (key : Line) (map request : LineMap) → IsValidKey key → HasHost map
        → CarriesButOffers (request_fields key) map request → OffersProtocols request → HasExtensions request
        → IsHandshake (codes "GET") HTTP_11 request key }
{}

/// Theorem: every response has exactly one result.
pub fn response_has_one_result()
    ensures some { (sent : LineMap) (status : ℕ) (response : LineMap)
        → (result : Checked) × Checks sent status response result }
    ensures one { (sent : LineMap) (status : ℕ) (response : LineMap) (a b : Checked)
        → Checks sent status response a → Checks sent status response b → a ≡ b }
{}

/// Theorem: a server's answer opens the connection for the client that sent the request. For a
/// client that sent another handshake, it opens one exactly if both keys have the same accept
/// value, and the selected subprotocol, if any, is one that this client offered. This holds for
/// every response in which the fields of the answer were set, whatever it had before. An answer
/// that doesn't switch opens no connection.
pub fn ends_agree()
    ensures own { (method : List ℕ) (version : Version) (request : LineMap) (origins : OriginList)
        (own : List FieldValue) (a : HandshakeAnswer) (map response : LineMap)
        → Answers method version request origins own a → IsSwitch a → Carries (answer_fields a) map response
        → IsOpened request (status_of a) response }
    ensures others { (method : List ℕ) (version : Version) (request : LineMap) (origins : OriginList)
        (own : List FieldValue) (a : HandshakeAnswer) (map response sent : LineMap) (key other : Line)
        → Answers method version request origins own a → IsSwitch a → HasKey request key → SendsKey sent other
        → Carries (answer_fields a) map response
        → IsOpened sent (status_of a) response
        ↔ ((accept_key_of key ≡ accept_key_of other) × FitsProtocol sent a) }
    ensures refusals { (a : HandshakeAnswer) (sent response : LineMap) → ¬ (IsSwitch a)
        → ¬ (IsOpened sent (status_of a) response) }
{}
