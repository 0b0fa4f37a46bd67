//! Media types.
ghost use Rattle.std.specs.Prelude.{◌≡◌};
ghost use Rattle.http_header.specs.FieldValue.{plain_value};
ghost use Rattle.server_files.specs.MediaTypes.{archive_type_of, document_type_of, film_type_of, media_type_of};
ghost use Rattle.server_files.specs.MediaTypes.{picture_type_of, program_type_of, sound_type_of};

use headers::HeaderValue;

/// The media type of the extension of a file's name, without its dot and in lower case.
/// `application/octet-stream` if it isn't known.
pub fn media_type_of(extension: &str) -> HeaderValue
    ensures { result ≡ plain_value (media_type_of extension.now) }
{
    match extension {
        "html" | "htm" | "shtml" => HeaderValue::from_static("text/html; charset=utf-8"),
        "xhtml" => HeaderValue::from_static("application/xhtml+xml"),
        "txt" | "log" => HeaderValue::from_static("text/plain; charset=utf-8"),
        "md" => HeaderValue::from_static("text/markdown; charset=utf-8"),
        "css" => HeaderValue::from_static("text/css; charset=utf-8"),
        "csv" => HeaderValue::from_static("text/csv; charset=utf-8"),
        "js" | "mjs" => HeaderValue::from_static("text/javascript; charset=utf-8"),
        "vtt" => HeaderValue::from_static("text/vtt; charset=utf-8"),
        "json" | "map" => HeaderValue::from_static("application/json"),
        "jsonld" => HeaderValue::from_static("application/ld+json"),
        "webmanifest" => HeaderValue::from_static("application/manifest+json"),
        "xml" => HeaderValue::from_static("application/xml"),
        "mml" => HeaderValue::from_static("application/mathml+xml"),
        "atom" => HeaderValue::from_static("application/atom+xml"),
        "rss" => HeaderValue::from_static("application/rss+xml"),
        "wasm" => HeaderValue::from_static("application/wasm"),
        _ => document_type_of(extension),
    }
}

// Documents, and what follows.
#[tactic(auto, unfolding(crate::specs::MediaTypes::document_type_of))]
fn document_type_of(extension: &str) -> HeaderValue
    ensures { result ≡ plain_value (document_type_of extension.now) }
{
    match extension {
        "pdf" => HeaderValue::from_static("application/pdf"),
        "epub" => HeaderValue::from_static("application/epub+zip"),
        "rtf" => HeaderValue::from_static("application/rtf"),
        "ps" | "eps" | "ai" => HeaderValue::from_static("application/postscript"),
        "doc" => HeaderValue::from_static("application/msword"),
        "xls" => HeaderValue::from_static("application/vnd.ms-excel"),
        "ppt" => HeaderValue::from_static("application/vnd.ms-powerpoint"),
        "docx" => HeaderValue::from_static(
            "application/vnd.openxmlformats-officedocument.wordprocessingml.document",
        ),
        "xlsx" => HeaderValue::from_static(
            "application/vnd.openxmlformats-officedocument.spreadsheetml.sheet",
        ),
        "pptx" => HeaderValue::from_static(
            "application/vnd.openxmlformats-officedocument.presentationml.presentation",
        ),
        "odt" => HeaderValue::from_static("application/vnd.oasis.opendocument.text"),
        "ods" => HeaderValue::from_static("application/vnd.oasis.opendocument.spreadsheet"),
        "odp" => HeaderValue::from_static("application/vnd.oasis.opendocument.presentation"),
        "odg" => HeaderValue::from_static("application/vnd.oasis.opendocument.graphics"),
        "kml" => HeaderValue::from_static("application/vnd.google-earth.kml+xml"),
        "kmz" => HeaderValue::from_static("application/vnd.google-earth.kmz"),
        "wml" => HeaderValue::from_static("text/vnd.wap.wml; charset=utf-8"),
        "wmlc" => HeaderValue::from_static("application/vnd.wap.wmlc"),
        _ => archive_type_of(extension),
    }
}

// Archives, and what follows.
#[tactic(auto, unfolding(crate::specs::MediaTypes::archive_type_of))]
fn archive_type_of(extension: &str) -> HeaderValue
    ensures { result ≡ plain_value (archive_type_of extension.now) }
{
    match extension {
        "zip" => HeaderValue::from_static("application/zip"),
        "gz" => HeaderValue::from_static("application/gzip"),
        "7z" => HeaderValue::from_static("application/x-7z-compressed"),
        "rar" => HeaderValue::from_static("application/vnd.rar"),
        "tar" => HeaderValue::from_static("application/x-tar"),
        "jar" | "war" | "ear" => HeaderValue::from_static("application/java-archive"),
        "jardiff" => HeaderValue::from_static("application/x-java-archive-diff"),
        "hqx" => HeaderValue::from_static("application/mac-binhex40"),
        "sit" => HeaderValue::from_static("application/x-stuffit"),
        "sea" => HeaderValue::from_static("application/x-sea"),
        "deb" => HeaderValue::from_static("application/vnd.debian.binary-package"),
        "rpm" => HeaderValue::from_static("application/x-redhat-package-manager"),
        "pdb" | "prc" => HeaderValue::from_static("application/vnd.palm"),
        "xpi" => HeaderValue::from_static("application/x-xpinstall"),
        _ => program_type_of(extension),
    }
}

// Programs, what they read, and what follows.
#[tactic(auto, unfolding(crate::specs::MediaTypes::program_type_of))]
fn program_type_of(extension: &str) -> HeaderValue
    ensures { result ≡ plain_value (program_type_of extension.now) }
{
    match extension {
        "exe" | "dll" => HeaderValue::from_static("application/vnd.microsoft.portable-executable"),
        "run" => HeaderValue::from_static("application/x-makeself"),
        "pl" | "pm" => HeaderValue::from_static("application/x-perl"),
        "tcl" | "tk" => HeaderValue::from_static("application/x-tcl"),
        "swf" => HeaderValue::from_static("application/vnd.adobe.flash.movie"),
        "htc" => HeaderValue::from_static("text/x-component; charset=utf-8"),
        "jad" => HeaderValue::from_static("text/vnd.sun.j2me.app-descriptor; charset=utf-8"),
        "jnlp" => HeaderValue::from_static("application/x-java-jnlp-file"),
        "cco" => HeaderValue::from_static("application/x-cocoa"),
        "der" | "crt" => HeaderValue::from_static("application/x-x509-ca-cert"),
        "pem" => HeaderValue::from_static("application/pem-certificate-chain"),
        _ => picture_type_of(extension),
    }
}

// Pictures and fonts, and what follows.
#[tactic(auto, unfolding(crate::specs::MediaTypes::picture_type_of))]
fn picture_type_of(extension: &str) -> HeaderValue
    ensures { result ≡ plain_value (picture_type_of extension.now) }
{
    match extension {
        "avif" => HeaderValue::from_static("image/avif"),
        "bmp" => HeaderValue::from_static("image/bmp"),
        "gif" => HeaderValue::from_static("image/gif"),
        "ico" => HeaderValue::from_static("image/vnd.microsoft.icon"),
        "jng" => HeaderValue::from_static("image/x-jng"),
        "jpg" | "jpeg" => HeaderValue::from_static("image/jpeg"),
        "png" => HeaderValue::from_static("image/png"),
        "svg" | "svgz" => HeaderValue::from_static("image/svg+xml"),
        "tif" | "tiff" => HeaderValue::from_static("image/tiff"),
        "wbmp" => HeaderValue::from_static("image/vnd.wap.wbmp"),
        "webp" => HeaderValue::from_static("image/webp"),
        "eot" => HeaderValue::from_static("application/vnd.ms-fontobject"),
        "otf" => HeaderValue::from_static("font/otf"),
        "ttf" => HeaderValue::from_static("font/ttf"),
        "woff" => HeaderValue::from_static("font/woff"),
        "woff2" => HeaderValue::from_static("font/woff2"),
        _ => sound_type_of(extension),
    }
}

// Sounds, and what follows.
#[tactic(auto, unfolding(crate::specs::MediaTypes::sound_type_of))]
fn sound_type_of(extension: &str) -> HeaderValue
    ensures { result ≡ plain_value (sound_type_of extension.now) }
{
    match extension {
        "aac" => HeaderValue::from_static("audio/aac"),
        "flac" => HeaderValue::from_static("audio/flac"),
        "m4a" => HeaderValue::from_static("audio/mp4"),
        "mid" | "midi" | "kar" => HeaderValue::from_static("audio/midi"),
        "mp3" => HeaderValue::from_static("audio/mpeg"),
        "oga" | "ogg" => HeaderValue::from_static("audio/ogg"),
        "ra" => HeaderValue::from_static("audio/x-realaudio"),
        "wav" => HeaderValue::from_static("audio/wav"),
        _ => film_type_of(extension),
    }
}

// Films, lists of what is played, and what follows.
#[tactic(auto, unfolding(crate::specs::MediaTypes::film_type_of))]
fn film_type_of(extension: &str) -> HeaderValue
    ensures { result ≡ plain_value (film_type_of extension.now) }
{
    match extension {
        "3gpp" | "3gp" => HeaderValue::from_static("video/3gpp"),
        "asf" => HeaderValue::from_static("application/vnd.ms-asf"),
        "asx" => HeaderValue::from_static("video/x-ms-asf"),
        "avi" => HeaderValue::from_static("video/x-msvideo"),
        "flv" => HeaderValue::from_static("video/x-flv"),
        "m3u8" => HeaderValue::from_static("application/vnd.apple.mpegurl"),
        "mng" => HeaderValue::from_static("video/x-mng"),
        "mov" => HeaderValue::from_static("video/quicktime"),
        "mp4" | "m4v" => HeaderValue::from_static("video/mp4"),
        "mpeg" | "mpg" => HeaderValue::from_static("video/mpeg"),
        "ogv" => HeaderValue::from_static("video/ogg"),
        "ts" => HeaderValue::from_static("video/mp2t"),
        "webm" => HeaderValue::from_static("video/webm"),
        "wmv" => HeaderValue::from_static("video/x-ms-wmv"),
        "xspf" => HeaderValue::from_static("application/xspf+xml"),
        _ => HeaderValue::from_static("application/octet-stream"),
    }
}
