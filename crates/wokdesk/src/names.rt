// The names of specs/Names.antt as constant data, one a line.
ghost use Rattle.std.specs.Prelude.{◌≡◌};
ghost use Rattle.wokdesk.specs.Names.{names};

static NAMES: [u8; 8192] = *b"\
    Reserved                        \
    IMSI                            \
    Cause                           \
    Recovery (Restart Counter)      \
    Reserved for S101 interface     \
    Reserved for S101 interface     \
    Reserved for S101 interface     \
    Reserved for S101 interface     \
    Reserved for S101 interface     \
    Reserved for S101 interface     \
    Reserved for S101 interface     \
    Reserved for S101 interface     \
    Reserved for S101 interface     \
    Reserved for S101 interface     \
    Reserved for S101 interface     \
    Reserved for S101 interface     \
    Reserved for S101 interface     \
    Reserved for S101 interface     \
    Reserved for S101 interface     \
    Reserved for S101 interface     \
    Reserved for S101 interface     \
    Reserved for S101 interface     \
    Reserved for S101 interface     \
    Reserved for S101 interface     \
    Reserved for S101 interface     \
    Reserved for S101 interface     \
    Reserved for S101 interface     \
    Reserved for S101 interface     \
    Reserved for S101 interface     \
    Reserved for S101 interface     \
    Reserved for S101 interface     \
    Reserved for S101 interface     \
    Reserved for S101 interface     \
    Reserved for S101 interface     \
    Reserved for S101 interface     \
    Reserved for S121 interface     \
    Reserved for S121 interface     \
    Reserved for S121 interface     \
    Reserved for S121 interface     \
    Reserved for S121 interface     \
    Reserved for S121 interface     \
    Reserved for S121 interface     \
    Reserved for S121 interface     \
    Reserved for S121 interface     \
    Reserved for S121 interface     \
    Reserved for S121 interface     \
    Reserved for S121 interface     \
    Reserved for S121 interface     \
    Reserved for S121 interface     \
    Reserved for S121 interface     \
    Reserved for S121 interface     \
    STN-SR                          \
    Reserved for Sv interface       \
    Reserved for Sv interface       \
    Reserved for Sv interface       \
    Reserved for Sv interface       \
    Reserved for Sv interface       \
    Reserved for Sv interface       \
    Reserved for Sv interface       \
    Reserved for Sv interface       \
    Reserved for Sv interface       \
    Reserved for Sv interface       \
    Reserved for Sv interface       \
    Reserved for Sv interface       \
    Reserved for Sv interface       \
    Reserved for Sv interface       \
    Reserved for Sv interface       \
    Reserved for Sv interface       \
    Reserved for Sv interface       \
    Reserved for Sv interface       \
    Reserved for Sv interface       \
    Access Point Name (APN)         \
    AMBR                            \
    EPS Bearer ID (EBI)             \
    IP Address                      \
    Mobile Equipment Identity (MEI) \
    MSISDN                          \
    Indication                      \
    PCO                             \
    PDN Address Allocation (PAA)    \
    Bearer QoS                      \
    Flow QoS                        \
    RAT Type                        \
    Serving Network                 \
    Bearer TFT                      \
    TAD                             \
    User Location Information (ULI) \
    F-TEID                          \
    TMSI                            \
    Global CN-Id                    \
    S103PDF                         \
    S1UDF                           \
    Delay Value                     \
    Bearer Context                  \
    Charging ID                     \
    Charging Characteristics        \
    Trace Information               \
    Bearer Flags                    \
    Reserved                        \
    PDN Type                        \
    Procedure Transaction ID        \
    Reserved                        \
    Reserved                        \
    MM Context                      \
    MM Context                      \
    MM Context                      \
    MM Context                      \
    MM Context                      \
    MM Context                      \
    PDN Connection                  \
    PDU Numbers                     \
    P-TMSI                          \
    P-TMSI Signature                \
    Hop Counter                     \
    UE Time Zone                    \
    Trace Reference                 \
    Complete Request Message        \
    GUTI                            \
    F-Container                     \
    F-Cause                         \
    PLMN ID                         \
    Target Identification           \
    Reserved                        \
    Packet Flow ID                  \
    RAB Context                     \
    Source RNC PDCP Context Info    \
    UDP Source Port Number          \
    APN Restriction                 \
    Selection Mode                  \
    Source Identification           \
    Reserved                        \
    Change Reporting Action         \
    FQ-CSID                         \
    Channel needed                  \
    eMLPP Priority                  \
    Node Type                       \
    FQDN                            \
    Transaction Identifier (TI)     \
    MBMS Session Duration           \
    MBMS Service Area               \
    MBMS Session Identifier         \
    MBMS Flow Identifier            \
    MBMS IP Multicast Distribution  \
    MBMS Distribution Acknowledge   \
    RFSP Index                      \
    User CSG Information (UCI)      \
    CSG Info Reporting Action       \
    CSG ID                          \
    CSG Membership Indication (CMI) \
    Service indicator               \
    Detach Type                     \
    Local Distinguished Name (LDN)  \
    Node Features                   \
    MBMS Time to Data Transfer      \
    Throttling                      \
    ARP                             \
    EPC Timer                       \
    Signalling Priority Indication  \
    TMGI                            \
    Additional MM context for SRVCC \
    Additional flags for SRVCC      \
    Reserved                        \
    MDT Configuration               \
    APCO                            \
    Abs. Time of MBMS Data Transfer \
    H(e)NB Information Reporting    \
    IP4CP                           \
    Change to Report Flags          \
    Action Indication               \
    TWAN Identifier                 \
    ULI Timestamp                   \
    MBMS Flags                      \
    RAN/NAS Cause                   \
    CN Operator Selection Entity    \
    Trusted WLAN Mode Indication    \
    Node Number                     \
    Node Identifier                 \
    Presence Reporting Area Action  \
    Presence Reporting Area Info    \
    TWAN Identifier Timestamp       \
    Overload Control Information    \
    Load Control Information        \
    Metric                          \
    Sequence Number                 \
    APN and Relative Capacity       \
    WLAN Offloadability Indication  \
    Paging and Service Information  \
    Integer Number                  \
    Millisecond Time Stamp          \
    Monitoring Event Information    \
    not named                       \
    not named                       \
    not named                       \
    not named                       \
    not named                       \
    not named                       \
    not named                       \
    not named                       \
    not named                       \
    not named                       \
    not named                       \
    Secondary RAT Usage Data Report \
    not named                       \
    not named                       \
    not named                       \
    not named                       \
    not named                       \
    not named                       \
    not named                       \
    not named                       \
    not named                       \
    not named                       \
    not named                       \
    not named                       \
    not named                       \
    not named                       \
    not named                       \
    not named                       \
    not named                       \
    not named                       \
    not named                       \
    not named                       \
    not named                       \
    not named                       \
    not named                       \
    not named                       \
    not named                       \
    not named                       \
    not named                       \
    not named                       \
    not named                       \
    not named                       \
    not named                       \
    not named                       \
    not named                       \
    not named                       \
    not named                       \
    not named                       \
    not named                       \
    not named                       \
    not named                       \
    not named                       \
    not named                       \
    not named                       \
    not named                       \
    not named                       \
    not named                       \
    not named                       \
    not named                       \
    not named                       \
    not named                       \
    not named                       \
    not named                       \
    not named                       \
    not named                       \
    Private Extension               \
    ";

// Proved here, so that no other proof has its octets before it.
pub(crate) fn names() -> &'static [u8]
    ensures { result.now ≡ names }
{
    &NAMES
}
