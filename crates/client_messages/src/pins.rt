//! Worked examples of the definitions, each for a reader to check at a glance.
ghost use Rattle.std.specs.Prelude.{◌≡◌, ◌++◌, [], Ok, Err, Some, None, codes};
ghost use Rattle.push_model.specs.Versions.{version_text};
ghost use Rattle.client_messages.specs.Ids.{chid_text, id_number, uaid_text};
ghost use Rattle.client_messages.specs.ClientTexts.{client_message};
ghost use Rattle.client_messages.specs.ServerTexts.{notification_with, aesgcm_with, data_with, key_part, salt_part};
ghost use Rattle.client_messages.specs.declared.client.ClientMsg.TheVariants.{Ping};
ghost use Rattle.client_messages.specs.declared.client.ClientFault.TheVariants.{NotJson, NoType};

/// A bare object is a ping, and what is no object or has no type is not read.
pub fn clients_are_understood_so()
    ensures bare { client_message (codes "{}") ≡ Ok Ping }
    ensures list { client_message (codes "[]") ≡ Err NoType }
    ensures untyped { client_message (codes "{\"a\":true}") ≡ Err NoType }
    ensures cut { client_message (codes "{") ≡ Err NotJson }
{}

/// Ids are 32 digits or hyphenated, and no other form is read.
pub fn ids_look_so()
    ensures uaid { uaid_text (record { 0 = 255 }) ≡ codes "000000000000000000000000000000ff" }
    ensures chid { chid_text (record { 0 = 255 }) ≡ codes "00000000-0000-0000-0000-0000000000ff" }
    ensures digits { id_number (codes "000000000000000000000000000000fF") ≡ Some 255 }
    ensures hyphens { id_number (codes "00000000-0000-0000-0000-0000000000Ff") ≡ Some 255 }
    ensures short { id_number (codes "0000000000000000000000000000ff") ≡ None }
{}

/// A notification without a payload, and what one with a payload has besides.
pub fn notifications_look_so()
    ensures empty { notification_with (record { 0 = 5 }) (data_with [] []) (record { shard = 0; number = 1 }) ≡ codes "{\"channelID\":\"00000000-0000-0000-0000-000000000005\",\"messageType\":\"notification\",\"version\":\"" ++ (version_text (record { shard = 0; number = 1 }) ++ codes "\"}") }
    ensures content { data_with (codes "hi") (codes "{}") ≡ codes "\"data\":\"aGk\",\"headers\":{}," }
    ensures bare { aesgcm_with (key_part []) (salt_part []) ≡ codes "{\"encoding\":\"aesgcm\"}" }
{}
