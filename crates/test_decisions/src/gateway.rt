//! Calls of a gateway that C doesn't have.
use gateway_hops::{
    Arrival, Forwarding, NextConnection, Node, NodeName, NodePort, Obfuscated, Received, Scheme,
    forwarding_fields,
};
use gateway_messages::{FieldLine, Framing, Gateway, MessageHead, Pseudonym, forward_trailers};
use headers::{Encoded, HeaderMap, HeaderName, HeaderValue};
use http_header::CONNECTION;
use std::alloc::AllocError;
use test_rows::{Arguments, Calls, CaseAnswer, CaseFailure};

/// The calls of a gateway.
pub struct Gateways;

// What the next word means.
fn choose<T: Copy>(arguments: &mut Arguments<'_>, choices: &[(&str, T)]) -> Result<T, CaseFailure> {
    let word = arguments.word()?;
    for (name, choice) in choices {
        if *name == word {
            return Ok(*choice);
        }
    }
    Err(CaseFailure::NoCall)
}

// The next word, as a field value, or `None` if it is `(none)`.
fn read_value(arguments: &mut Arguments<'_>) -> Result<Option<HeaderValue>, CaseFailure> {
    match arguments.option()? {
        Some(text) => Ok(Some(HeaderValue::from_str(arguments.alloc(), text)?)),
        None => Ok(None),
    }
}

fn add_encoded(encoded: &[Encoded], answer: &mut CaseAnswer) -> Result<(), AllocError> {
    for field in encoded {
        answer.word(format_args!("({})", field.name.as_str()))?;
        for line in &field.lines {
            answer.bytes(line.as_bytes())?;
        }
    }
    Ok(())
}

// NAME consumed|relayed|underscores|signed: a gateway that protects X-Client, and if it is signed, Signature.
fn read_gateway(arguments: &mut Arguments<'_>) -> Result<Gateway, CaseFailure> {
    let alloc = arguments.alloc();
    let mut gateway = Gateway::new(alloc, Pseudonym::new(alloc, arguments.word()?)?);
    let (consumes_credentials, passes_underscores, is_signed) = choose(
        arguments,
        &[
            ("consumed", (true, false, false)),
            ("relayed", (false, false, false)),
            ("underscores", (true, true, false)),
            ("signed", (true, false, true)),
        ],
    )?;
    gateway.consumes_credentials = consumes_credentials;
    gateway.passes_underscores = passes_underscores;
    gateway.protected.push(HeaderName::from_static("x-client"))?;
    if is_signed {
        gateway
            .protected
            .push(HeaderName::from_static("signature"))?;
    }
    Ok(gateway)
}

fn add_fields(fields: &[FieldLine], answer: &mut CaseAnswer) -> Result<(), AllocError> {
    for field in fields {
        answer.word(format_args!("({})", field.name.as_str()))?;
        answer.bytes(field.value.as_bytes())?;
    }
    Ok(())
}

// `trailers GATEWAY FRAMING CONNECTION TRAILERS`: the trailer fields that are forwarded.
fn call_trailers(
    arguments: &mut Arguments<'_>,
    answer: &mut CaseAnswer,
) -> Result<(), CaseFailure> {
    let gateway = read_gateway(arguments)?;
    let framing = match arguments.word()? {
        "unstated" => Framing::Unstated,
        "chunked" => Framing::Chunked,
        word => Framing::Length(word.parse().map_err(|_| CaseFailure::NoCall)?),
    };
    let mut fields = HeaderMap::new(arguments.alloc());
    if let Some(connection) = read_value(arguments)? {
        fields.append(CONNECTION, connection)?;
    }
    let trailers = arguments.map()?;
    let message = MessageHead {
        fields: &fields,
        framing,
    };
    let sent = forward_trailers(answer.alloc(), &gateway, &message, &trailers)?;
    Ok(add_fields(sent.as_slice(), answer)?)
}

// `connection close|no trailers|no UPGRADE`: the fields of the connection.
fn call_connection(
    arguments: &mut Arguments<'_>,
    answer: &mut CaseAnswer,
) -> Result<(), CaseFailure> {
    let closes = choose(arguments, &[("close", true), ("no", false)])?;
    let accepts_trailers = choose(arguments, &[("trailers", true), ("no", false)])?;
    let upgrade = read_value(arguments)?;
    let next = NextConnection {
        closes,
        accepts_trailers,
        upgrade: upgrade.as_ref(),
    };
    let encoded = next.fields(answer.alloc())?;
    Ok(add_encoded(encoded.as_slice(), answer)?)
}

// The next two words, as a node with an address and a hidden port.
fn read_node(arguments: &mut Arguments<'_>) -> Result<Node, CaseFailure> {
    let address = arguments.word()?.parse().map_err(|_| CaseFailure::NoCall)?;
    let port = Obfuscated::new(arguments.alloc(), arguments.word()?)?;
    Ok(Node {
        name: NodeName::Address(address),
        port: Some(NodePort::Hidden(port)),
    })
}

// `forwarding no forwarded ADDRESS PORT unknown (none) (none) no no`: the fields that tell who made a request, whose
// node has a hidden port. Nothing else is known.
fn call_forwarding(
    arguments: &mut Arguments<'_>,
    answer: &mut CaseAnswer,
) -> Result<(), CaseFailure> {
    choose(arguments, &[("no", ())])?;
    choose(arguments, &[("forwarded", ())])?;
    let client = read_node(arguments)?;
    if arguments.rest() != "unknown (none) (none) no no" {
        return Err(CaseFailure::NoCall);
    }
    let forwarding = Forwarding {
        received: Received::Dropped,
        writes_forwarded: true,
        writes_x_forwarded: false,
    };
    let arrival = Arrival {
        client: &client,
        interface: None,
        host: None,
        scheme: Scheme::Http,
        is_trusted: false,
    };
    let fields = HeaderMap::new(answer.alloc());
    let encoded = forwarding_fields(answer.alloc(), forwarding, &arrival, &fields)?;
    Ok(add_encoded(encoded.as_slice(), answer)?)
}

impl Calls for Gateways {
    fn make(
        name: &str,
        arguments: &mut Arguments<'_>,
        answer: &mut CaseAnswer,
    ) -> Result<(), CaseFailure> {
        match name {
            "trailers" => call_trailers(arguments, answer),
            "connection" => call_connection(arguments, answer),
            "forwarding" => call_forwarding(arguments, answer),
            _ => Err(CaseFailure::NoCall),
        }
    }
}
